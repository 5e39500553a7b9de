// Checking: refusals 1 to 8, or the counts of an accepted ticket.
#![tactic(auto)]

ghost use Rattle.std.specs.Prelude.{◌≡◌, ◌/◌, ◌≤◌, length};
ghost use Rattle.cell.specs.Records.{records_of};
ghost use Rattle.checking.specs.Checking.{gate_count};
ghost use Rattle.calls.specs.Answers.{counts_of};
ghost use Rattle.calls.specs.Work.{cleared};
ghost use Rattle.calls.specs.Calls.{check_answer};

use calls::Counts;
use refusals::Refusal;

// The counts of a ticket that passed.
fn counts(ticket: &[u8]) -> Counts
    requires { length ticket.now / 16 ≤ 512 }
    ensures { result ≡ counts_of (length ticket.now / 16) (gate_count (records_of ticket.now)) }
{
    Counts {
        records: cell::records(ticket) as u32,
        gates: checking::gate_count(ticket),
    }
}

// Checks a ticket: refusals 1 to 8, or its record count and gate count.
#[tactic(auto, using(crate::proofs::Answers::answered))]
pub fn check(ticket: &[u8], work: &mut [u32]) -> Result<Counts, Refusal>
    ensures value { result ≡ check_answer (length work.old) ticket.now }
    ensures work_after { work.new ≡ cleared work.old }
{
    // Not by `with_work`: there is no reply to lend to a step.
    let verdict = delivery::begin(ticket, work);
    delivery::end(work);
    verdict?;
    Ok(counts(ticket))
}
