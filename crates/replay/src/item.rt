// A ticket of the list, tried. What is expected of a call is read from its file.
ghost use Rattle.std.specs.Prelude.{◌≡◌};

use oracle_list::{Files, ListError, Slices};
use outcome::{Expected, Figures, Mismatch, Sums};
use std::io::Read;
use thiserror::Error;
use trial::{Lent, Levels, Loan, Replying};

// Why a ticket is not as expected.
#[derive(Clone, Copy, Debug, Error)]
pub enum Fault {
    #[error("{0}")]
    Unread(#[from] ListError),
    #[error("{0}")]
    Differs(#[from] Mismatch),
}

#[derive(Clone, Copy)]
pub struct Item<'a> {
    pub ticket: &'a [u8],
    pub slices: Slices,
    // Of the litter that the slices hold.
    pub seed: u32,
}

impl<'a> Item<'a> {
    // The work slice, lent from a space.
    fn work_in(self, space: &mut [u32]) -> Loan<u32>
        ensures len { result.len ≡ self.entry.slices.work }
        ensures seed { result.seed ≡ self.entry.seed }
    {
        Loan {
            space,
            len: self.slices.work,
            seed: self.seed,
        }
    }

    pub fn check<F: Read>(self, expected: &mut F, space: &mut [u32]) -> Result<(), Fault> {
        let figures = Figures::from(oracle_list::read_entry(expected)?);
        Ok(trial::check(self.ticket, self.work_in(space), figures)?)
    }

    // A call that writes a reply, with so much lent.
    pub fn replying<C: Replying, F: Read>(
        self,
        call: C,
        lent: Lent,
        expected: &mut F,
        space: &mut [u32],
    ) -> Result<(), Fault> {
        let figures = Figures::from(oracle_list::read_entry(expected)?);
        let sums = Sums::from(oracle_list::read_entry(expected)?);
        let work = Loan {
            space,
            len: lent.words,
            seed: self.seed,
        };
        // A fixed buffer: with `Vec` the run could fail for want of memory.
        let mut bytes = [0; 17000];
        let reply = Loan {
            space: &mut bytes,
            len: lent.bytes,
            seed: self.seed,
        };
        let expected = Expected { figures, sums };
        Ok(trial::replying(call, self.ticket, work, reply, expected)?)
    }

    // Levels for each of a ticket's three assignments.
    pub fn levels<F: Read>(self, files: &mut Files<F>, space: &mut [u32]) -> Result<(), Fault> {
        let mut all = Ok(());
        for _ in 0..3 {
            all = all.and(in_turn(self.next_levels(files, space))?);
        }
        all
    }

    fn next_levels<F: Read>(self, files: &mut Files<F>, space: &mut [u32]) -> Result<(), Fault> {
        // A fixed buffer, as above.
        let mut buffer = [0; 1024];
        let levels = oracle_list::next_levels(&mut files.stimuli, &mut buffer)?;
        let lent = Lent {
            words: self.slices.work,
            bytes: self.slices.level_reply,
        };
        self.replying(Levels { levels }, lent, &mut files.expected, space)
    }
}

// A read that failed is told at once, any other fault only in its turn.
fn in_turn(tried: Result<(), Fault>) -> Result<Result<(), Fault>, Fault> {
    match tried {
        Err(Fault::Unread(ListError::Io(error))) => Err(ListError::Io(error).into()),
        _ => Ok(tried),
    }
}
