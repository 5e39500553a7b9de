// Levels of the outputs for a stimulus.
#![tactic(auto)]

ghost use Rattle.std.specs.Prelude.{◌≡◌, ◌<◌, ◌≤◌, List, ℕ, length, slice_index, MatchOption};
ghost use Rattle.std.specs.List.{AllWithin};
ghost use Rattle.kinds.specs.declared.Sort.TheVariants as sort;
ghost use Rattle.kinds.specs.Kinds.{number_of};
ghost use Rattle.cell.specs.Records.{records_of};
ghost use Rattle.netlist.specs.inner.Areas.{records_in};
ghost use Rattle.levels.specs.Fold.{cells_in, of_kind};
ghost use Rattle.refusals.specs.Refusals.{first_of};
ghost use Rattle.calls.specs.Calls.{put, stimulus_stages, level_answer, level_reply};
ghost use Rattle.calls.specs.Work.{cleared};
ghost use Rattle.delivery.specs.inner.Delivery.{Loaded};
ghost use Rattle.levels_call.specs.inner.Levels.{IsLevel, output_at, put_level, written_levels, DeliversLevels, Levels};

use kinds::Sort;
use refusals::Refusal;
use value::Slot;

// The first byte that is no level.
fn no_level(stimulus: &[u8]) -> Option<usize>
    ensures { MatchOption result (AllWithin IsLevel stimulus.now 0 (length stimulus.now))
        (λ i. (i < length stimulus.now) × (2 < slice_index stimulus.now i) × AllWithin IsLevel stimulus.now 0 i) }
{
    stimulus.iter().position(|level| 2 < *level)
}

// 10 and 11.
fn stimulus_verdict(work: &[u32], n: u32, stimulus: &[u8]) -> Result<(), Refusal>
    requires { n ≤ 512 }
    ensures { result ≡ first_of (stimulus_stages (cells_in n work.now) stimulus.now) }
{
    let count = levels::count_kind(work, n, Sort::Input as u8);
    if stimulus.len() != (count as usize) {
        return Err(Refusal::LevelCount);
    }
    match no_level(stimulus) {
        Some(i) => Err(Refusal::LevelValue(i as u32)),
        None => Ok(()),
    }
}

// Writes the level of a slot that holds an output as byte k of the reply. The answer is whether the slot holds one.
#[tactic(auto, using(crate::proofs::Outputs::output_is))]
fn write_at(work: &[u32], n: u32, s: Slot, reply: &mut [u8], k: u32) -> bool
    ensures value { result ≡ output_at work.now s.0 }
    ensures reply_after { reply.new ≡ put_level n work.now s.0 reply.old k }
{
    if netlist::is_output(work, s) {
        let t = levels::level_at(work, n, s);
        basics::put(reply, k as usize, u32::from(t) as u8);
        return true;
    }
    false
}

// Writes the levels of the outputs, in slot order.
fn write_levels(work: &[u32], n: u32, reply: &mut [u8])
    requires n_bound { n ≤ 512 }
    requires work_in_bounds { length (of_kind (number_of sort.Output) (records_in n work.now)) ≤ length reply.old }
    ensures { reply.new ≡ put reply.old (written_levels n work.now) }
{
    let mut k = 0;
    // Two counts: how many bytes are written depends on what the slots hold. By index: the loop is over the slots, so an `iter_mut` of the reply
    // would be advanced by hand, and of what is written through it a proof knows the length alone.
    for s in 0..n {
        k += u32::from(write_at(work, n, Slot(s), reply, k));
    }
}

// 12, or the levels of the outputs.
fn written(work: &mut [u32], n: u32, stimulus: &[u8], reply: &mut [u8]) -> Result<u32, Refusal>
    requires in_bounds { 16384 ≤ length work.old }
    requires n_bound { n ≤ 512 }
    ensures { DeliversLevels n stimulus.now work.old work.new reply.old reply.new result }
{
    let count = levels::count_kind(work, n, Sort::Output as u8);
    if reply.len() < (count as usize) {
        return Err(Refusal::ShortReply);
    }
    levels::evaluate(work, n, stimulus);
    write_levels(work, n, reply);
    Ok(count)
}

// 10 to 12, or the levels of the outputs, for the n records of a ticket that passed.
fn evaluated(work: &mut [u32], n: u32, stimulus: &[u8], reply: &mut [u8]) -> Result<u32, Refusal>
    requires { Loaded n work.old }
    ensures { (t : List ℕ) → records_in n work.old ≡ records_of t → Levels t stimulus.now work.old work.new reply.old reply.new result }
{
    stimulus_verdict(work, n, stimulus)?;
    written(work, n, stimulus, reply)
}

// The levels of a ticket's outputs for a stimulus, a byte for each input record in, one for each output record out.
pub fn levels(
    ticket: &[u8],
    stimulus: &[u8],
    work: &mut [u32],
    reply: &mut [u8],
) -> Result<u32, Refusal>
    ensures value { result ≡ level_answer (length work.old) ticket.now stimulus.now reply.old }
    ensures reply_after { reply.new ≡ level_reply (length work.old) ticket.now stimulus.now reply.old }
    ensures work_after { work.new ≡ cleared work.old }
{
    delivery::with_work(
        ticket,
        work,
        reply,
        |work, n, reply| evaluated(work, n, stimulus, reply),
    )
}
