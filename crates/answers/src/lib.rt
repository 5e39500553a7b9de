// The answers of the calls put into the eight answer words for C.
#![tactic(auto)]

ghost use Rattle.std.specs.Prelude.{◌≡◌, cond};
ghost use Rattle.calls.specs.Answers.{Told, accepted, told_as, words_of};

use calls::{Counts, Merged};
use refusals::{Figures, Refusal};

// What a call tells of an accepted ticket: a count and a further figure.
pub trait Accepted {
    ghost told: { Self → Told };

    fn figures(self) -> (u32, u32)
        ensures { told self ≡ accepted result.0 result.1 };
}

// Levels, compacting, rewriting: the byte count.
impl Accepted for u32 {
    ghost told = { λ bytes. accepted bytes 0 };

    fn figures(self) -> (u32, u32) {
        (self, 0)
    }
}

impl Accepted for Counts {
    ghost told = { λ c. accepted c.records c.gates };

    fn figures(self) -> (u32, u32) {
        (self.records, self.gates)
    }
}

impl Accepted for Merged {
    ghost told = { λ m. accepted m.bytes (cond m.changed 1 0) };

    fn figures(self) -> (u32, u32) {
        (self.bytes, u32::from(self.changed))
    }
}

// Puts an answer into the answer words, and gives its number: 0 for an accepted ticket.
pub fn tell<A: Accepted>(answer: Result<A, Refusal>, words: &mut [u32; 8]) -> u32
    ensures value { result ≡ (told_as A.told answer).number }
    ensures answer_after { words.new ≡ words_of (told_as A.told answer) }
{
    match answer {
        Ok(told) => {
            let (count, extra) = told.figures();
            *words = [0, count, extra, 0, 0, 0, 0, 0];
            0
        }
        Err(x) => {
            let f = Figures::from(x);
            *words = [f.place, 0, 0, f.field, 0, 0, 0, 0];
            f.number
        }
    }
}
