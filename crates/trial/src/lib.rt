// A call tried on given slices: what it answers and leaves, held to what it must.
#![tactic(auto)]

ghost use Rattle.std.specs.Prelude.{◌≡◌, ◌≤◌, length, IfOk, OnOk};
ghost use Rattle.calls.specs.Answers.{check_figures};
ghost use Rattle.calls.specs.Calls.{check_answer};
ghost use Rattle.trial.specs.Trial.{IsTold, IsToldFrom};

mod call;

pub use call::{Compact, Levels, Merge, Replying, Rewrite};
use litter::Scrap;
use outcome::{Answer, Expected, Figures, Mismatch};

// How many words of work and how many bytes of reply a call is lent.
#[derive(Clone, Copy)]
pub struct Lent {
    pub words: usize,
    pub bytes: usize,
}

// The slice that a call is lent, the first len of a longer space, so that a store behind it shows;
// seed says which litter the space holds at entry.
#[derive(Drop)]
pub struct Loan<'a, T> {
    pub space: &'a mut [T],
    pub len: usize,
    pub seed: u32,
}

// Spills a space, and lends its first part. This and the next are no methods of `Loan`: of a struct
// that holds a `&mut` and is lent on, the borrow checker covers no call yet.
fn lend<T: Scrap>(space: &mut [T], len: usize, seed: u32) -> Result<&mut [T], Mismatch>
    ensures { IfOk result (λ lent. length lent.now ≡ len) }
{
    if space.len() < len {
        return Err(Mismatch::NoSpace);
    }
    litter::spill(space, seed);
    Ok(&mut space[..len])
}

// Whether a call left its work slice, and the words behind it, as it must.
fn left(space: &[u32], len: usize, seed: u32) -> Result<(), Mismatch> {
    if litter::is_left(space, len, seed) {
        Ok(())
    } else {
        Err(Mismatch::Work)
    }
}

// The check of a ticket.
pub fn check(ticket: &[u8], work: Loan<u32>, expected: Figures) -> Result<(), Mismatch>
    ensures { OnOk result (IsTold (check_figures (check_answer work.entry.len ticket.now)) expected) }
{
    let Loan { space, len, seed } = work;
    let mut words = [litter::first(seed); 8];
    let number = ticket::cabbagetier_check(ticket, lend(space, len, seed)?, &mut words);
    left(space, len, seed)?;
    Answer { number, words }.judge(expected)
}

// A call that writes a reply.
pub fn replying<C: Replying>(
    call: C,
    ticket: &[u8],
    work: Loan<u32>,
    reply: Loan<u8>,
    expected: Expected,
) -> Result<(), Mismatch>
    ensures { OnOk result (IsToldFrom reply.entry.len (C.told call ticket.now work.entry.len) expected.figures) }
{
    let Loan { space, len, seed } = work;
    let Loan {
        space: bytes,
        len: byte_len,
        seed: byte_seed,
    } = reply;
    let mut words = [litter::first(seed); 8];
    let number = call.call(
        ticket,
        lend(space, len, seed)?,
        lend(bytes, byte_len, byte_seed)?,
        &mut words,
    );
    left(space, len, seed)?;
    Answer { number, words }.judge_reply(bytes, byte_seed, expected)
}
