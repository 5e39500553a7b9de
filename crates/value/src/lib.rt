// Nets, slots and control nets, with their orders. After netlist/src/value.rs.
#![tactic(auto)]

ghost use Rattle.std.specs.Prelude.{◌≡◌, ◌≤◌};
ghost use Rattle.value.specs.Value.{net_of, driver, from_net_invert, net, is_positive, is_negative, is_always, canonicalize, not_control};

use logic::Trit;
use std::ops::Not;

// A net's index, a number as it stands in a ticket: 0 and 1 are the constants zero and one, 4294967295 is undefined, any other is a slot's number plus two.
// By index, so undefined is last.
#[derive(Clone, Copy, Debug, PartialEq, Eq, PartialOrd, Ord, Hash)]
pub struct Net(pub u32);

// A slot's number: the cell index of the Rust.
#[derive(Clone, Copy, Debug, PartialEq, Eq, PartialOrd, Ord, Hash)]
pub struct Slot(pub u32);

// A net that can be negated, as in the Rust; neither variant is a failure. All positive before all negative, then by index.
#[derive(Clone, Copy, Debug, PartialEq, Eq, PartialOrd, Ord, Hash)]
pub enum ControlNet {
    Pos(Net),
    Neg(Net),
}

// What drives a net. In the Rust it is `Result<usize, Trit>`. An enum here: a constant is no error, and the definitions match on `Const` and `Cell`
// by name.
#[derive(Clone, Copy, Debug, PartialEq, Eq)]
pub enum Driver {
    Const(Trit),
    Cell(Slot),
}

impl Net {
    pub const UNDEF: Net = Net(4294967295);

    pub const ZERO: Net = Net(0);

    pub const ONE: Net = Net(1);

    pub fn from_cell_index(s: Slot) -> Net
        requires { s.0 ≤ 4294967292 }
        ensures { result ≡ net_of s }
    {
        Net(s.0 + 2)
    }

    #[tactic(auto, unfolding(crate::specs::Value::driver, crate::specs::Value::eq_net))]
    pub fn as_cell_index(self) -> Driver
        ensures { result ≡ driver self }
    {
        let i = self.0;
        if 2 <= i {
            if self == Net::UNDEF {
                return Driver::Const(Trit::Undef);
            }
            return Driver::Cell(Slot(i - 2));
        }
        if self == Net::ZERO {
            return Driver::Const(Trit::Zero);
        }
        Driver::Const(Trit::One)
    }
}

impl ControlNet {
    pub fn from_net_invert(n: Net, invert: bool) -> ControlNet
        ensures { result ≡ from_net_invert n invert }
    {
        if invert {
            ControlNet::Neg(n)
        } else {
            ControlNet::Pos(n)
        }
    }

    pub fn net(self) -> Net
        ensures { result ≡ net self }
    {
        match self {
            ControlNet::Pos(n) | ControlNet::Neg(n) => n,
        }
    }

    pub fn is_positive(self) -> bool
        ensures { result ≡ is_positive self }
    {
        matches!(self, ControlNet::Pos(_))
    }

    #[tactic(auto, using(crate::proofs::Laws::negative_is))]
    pub fn is_negative(self) -> bool
        ensures { result ≡ is_negative self }
    {
        !self.is_positive()
    }

    #[tactic(auto, unfolding(crate::specs::Value::is_always, crate::specs::Value::eq_net))]
    pub fn is_always(self, active: bool) -> bool
        ensures { result ≡ is_always self active }
    {
        match self {
            ControlNet::Pos(n) => {
                if active {
                    n == Net::ONE
                } else {
                    n == Net::ZERO
                }
            }
            ControlNet::Neg(n) => {
                if active {
                    n == Net::ZERO
                } else {
                    n == Net::ONE
                }
            }
        }
    }

    // A negated constant is a constant.
    #[tactic(auto, unfolding(crate::specs::Value::canonicalize, crate::specs::Value::eq_net))]
    pub fn canonicalize(self) -> ControlNet
        ensures { result ≡ canonicalize self }
    {
        match self {
            ControlNet::Pos(n) => ControlNet::Pos(n),
            ControlNet::Neg(n) => {
                if n == Net::UNDEF {
                    return ControlNet::Pos(n);
                }
                if n == Net::ZERO {
                    return ControlNet::Pos(Net::ONE);
                }
                if n == Net::ONE {
                    return ControlNet::Pos(Net::ZERO);
                }
                ControlNet::Neg(n)
            }
        }
    }
}

impl Not for ControlNet {
    type Output = ControlNet;

    ghost not_gives = { λ p r. r ≡ not_control p };

    #[tactic(auto, unfolding(crate::specs::Value::not_control))]
    fn not(self) -> ControlNet {
        match self {
            ControlNet::Pos(n) => ControlNet::Neg(n).canonicalize(),
            ControlNet::Neg(n) => ControlNet::Pos(n).canonicalize(),
        }
    }
}
