// Levels: zero, one and undefined, and the operations on them. After netlist/src/logic.rs.
#![tactic(auto)]

ghost use Rattle.std.specs.Prelude.{◌≡◌, cond};
ghost use Rattle.logic.specs.Levels.{not_level, and_level, or_level, xor_level, mux_level, byte_of, level_of};

use std::ops::{BitAnd, BitOr, BitXor, Not};

// A level; the number is its byte. No Option<bool>: undefined is a level too, which the operations give and take.
#[derive(Clone, Copy, Debug, PartialEq, Eq)]
pub enum Trit {
    Zero = 0,
    One = 1,
    Undef = 2,
}

impl Not for Trit {
    type Output = Trit;

    ghost not_gives = { λ x r. r ≡ not_level x };

    fn not(self) -> Trit {
        match self {
            Trit::One => Trit::Zero,
            Trit::Zero => Trit::One,
            Trit::Undef => Trit::Undef,
        }
    }
}

impl BitAnd for Trit {
    type Output = Trit;

    ghost bitand_gives = { λ x y r. r ≡ and_level x y };

    fn bitand(self, rhs: Trit) -> Trit {
        match (self, rhs) {
            (Trit::Zero, _) => Trit::Zero,
            (_, Trit::Zero) => Trit::Zero,
            (Trit::Undef, _) => Trit::Undef,
            (_, Trit::Undef) => Trit::Undef,
            (Trit::One, Trit::One) => Trit::One,
        }
    }
}

// By a table of its own, as the Rust and the definition have it; by `!` and `&` it would be no plainer.
impl BitOr for Trit {
    type Output = Trit;

    ghost bitor_gives = { λ x y r. r ≡ or_level x y };

    fn bitor(self, rhs: Trit) -> Trit {
        match (self, rhs) {
            (Trit::One, _) => Trit::One,
            (_, Trit::One) => Trit::One,
            (Trit::Undef, _) => Trit::Undef,
            (_, Trit::Undef) => Trit::Undef,
            (Trit::Zero, Trit::Zero) => Trit::Zero,
        }
    }
}

impl BitXor for Trit {
    type Output = Trit;

    ghost bitxor_gives = { λ x y r. r ≡ xor_level x y };

    fn bitxor(self, rhs: Trit) -> Trit {
        match (self, rhs) {
            (Trit::Undef, _) => Trit::Undef,
            (_, Trit::Undef) => Trit::Undef,
            (Trit::One, Trit::One) => Trit::Zero,
            (Trit::One, Trit::Zero) => Trit::One,
            (Trit::Zero, Trit::One) => Trit::One,
            (Trit::Zero, Trit::Zero) => Trit::Zero,
        }
    }
}

// A level as a byte of the stimulus and the reply. A number and no u8: levels stand in words, and two places that have a byte turn it there.
impl From<Trit> for u32 {
    ghost from_gives = { λ t b. b ≡ byte_of t };

    fn from(t: Trit) -> u32 {
        t as u32
    }
}

// Any number but 0 and 1 is undefined.
impl From<u32> for Trit {
    ghost from_gives = { λ b t. t ≡ level_of b };

    #[tactic(auto, unfolding(crate::specs::Levels::level_of))]
    fn from(b: u32) -> Trit {
        match b {
            0 => Trit::Zero,
            1 => Trit::One,
            _ => Trit::Undef,
        }
    }
}

impl Trit {
    // One bit of a multiplexer: an undefined select gives what both arms agree on.
    #[tactic(auto, unfolding(crate::specs::Levels::eq_level))]
    pub fn mux(self, arg1: Trit, arg2: Trit) -> Trit
        ensures { result ≡ mux_level self arg1 arg2 }
    {
        match self {
            Trit::One => arg1,
            Trit::Zero => arg2,
            Trit::Undef => { if arg1 == arg2 { arg1 } else { Trit::Undef } }
        }
    }
}
