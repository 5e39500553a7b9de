// What a trial comes to: the figures and the reply of a call, held to those expected, and what
// differs told and counted.
#![tactic(auto)]

ghost use Rattle.std.specs.Prelude.{◌≡◌, ◌≤◌, ◌+◌, ◌*◌, ◌++◌, length, slice_index, codes, decimal, OnOk, Some};
ghost use Rattle.outcome.specs.Figures.{words_of};

mod digest;
mod tally;

pub use digest::Sums;
use std::fmt;
pub use tally::Tally;
use thiserror::Error;

// What a call answers: the number that it returns and its first five answer words. The last of these
// is kept for later: it is 0 today, as are the three words behind it.
#[derive(Clone, Copy, Debug, PartialEq, Eq)]
pub struct Figures {
    pub number: u32,
    pub place: u32,
    pub count: u32,
    pub extra: u32,
    pub field: u32,
    pub spare: u32,
}

// As an entry of the list has them, six numbers of 16 bits, little-endian.
impl From<[u8; 12]> for Figures {
    ghost from_gives = { λ x r.
        (r.number ≡ slice_index x 0 + slice_index x 1 * 256)
        × (r.place ≡ slice_index x 2 + slice_index x 3 * 256)
        × (r.count ≡ slice_index x 4 + slice_index x 5 * 256)
        × (r.extra ≡ slice_index x 6 + slice_index x 7 * 256)
        × (r.field ≡ slice_index x 8 + slice_index x 9 * 256)
        × (r.spare ≡ slice_index x 10 + slice_index x 11 * 256) };

    fn from(entry: [u8; 12]) -> Figures {
        let [n0, n1, p0, p1, c0, c1, e0, e1, f0, f1, s0, s1] = entry;
        Figures {
            number: u16::from_le_bytes([n0, n1]).into(),
            place: u16::from_le_bytes([p0, p1]).into(),
            count: u16::from_le_bytes([c0, c1]).into(),
            extra: u16::from_le_bytes([e0, e1]).into(),
            field: u16::from_le_bytes([f0, f1]).into(),
            spare: u16::from_le_bytes([s0, s1]).into(),
        }
    }
}

impl fmt::Display for Figures {
    ghost output = { λ x. Some (decimal x.number ++ (codes " " ++ (decimal x.place ++ (codes " " ++ (decimal x.count ++ (codes " " ++ (decimal x.extra ++ (codes " " ++ (decimal x.field ++ (codes " " ++ decimal x.spare)))))))))) };

    fn fmt<W: fmt::Write>(&self, f: &mut fmt::Formatter<W>) -> fmt::Result {
        write!(
            f,
            "{} {} {} {} {} {}",
            self.number, self.place, self.count, self.extra, self.field, self.spare
        )
    }
}

#[derive(Clone, Copy)]
pub struct Expected {
    pub figures: Figures,
    // Of the reply's bytes.
    pub sums: Sums,
}

// The first thing that is not as it must be.
#[derive(Clone, Copy, Debug, PartialEq, Eq, Error)]
pub enum Mismatch {
    // There is less space than is to be lent.
    #[error("too little space")]
    NoSpace,
    #[error("answered {answered}, expected {expected}")]
    Answered {
        answered: Figures,
        expected: Figures,
    },
    #[error("an answer word behind the figures is not 0")]
    AnswerRest,
    // A word of the work slice that is not cleared, or a word behind it that is not kept.
    #[error("the work slice is not left as it must be")]
    Work,
    // The reply's bytes are not those expected.
    #[error("the reply differs")]
    Reply,
    // A byte behind the reply that is not kept.
    #[error("the bytes behind the reply are not kept")]
    ReplyRest,
}

// What a call left: the number that it returned, and its answer words.
#[derive(Clone, Copy)]
pub struct Answer {
    pub number: u32,
    // Eight numbers in a row, as C has them.
    pub words: [u32; 8],
}

impl Answer {
    pub fn judge(self, expected: Figures) -> Result<(), Mismatch>
        ensures number { OnOk result (self.number ≡ expected.number) }
        ensures words { OnOk result (self.words ≡ words_of expected) }
        ensures rest { OnOk result (slice_index self.words 7 ≡ 0) }
    {
        let [place, count, extra, field, spare, x, y, z] = self.words;
        let answered = Figures {
            number: self.number,
            place,
            count,
            extra,
            field,
            spare,
        };
        if answered != expected {
            return Err(Mismatch::Answered { answered, expected });
        }
        if [x, y, z] != [0; 3] {
            return Err(Mismatch::AnswerRest);
        }
        Ok(())
    }

    // The figures and the reply, the first bytes of a space that was spilled with the same seed.
    pub fn judge_reply(self, space: &[u8], seed: u32, expected: Expected) -> Result<(), Mismatch>
        ensures number { OnOk result (self.number ≡ expected.figures.number) }
        ensures words { OnOk result (self.words ≡ words_of expected.figures) }
        ensures in_space { OnOk result (slice_index self.words 1 ≤ length space.now) }
    {
        self.judge(expected.figures)?;
        let n = self.words[1] as usize;
        let reply = space.get(..n).ok_or(Mismatch::Reply)?;
        if Sums::of(reply) != expected.sums {
            return Err(Mismatch::Reply);
        }
        if !litter::is_kept_behind(space, n, seed) {
            return Err(Mismatch::ReplyRest);
        }
        Ok(())
    }
}
