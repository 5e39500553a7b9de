// Merging: equal cells made one, and the result compacted.
#![tactic(auto)]

ghost use Rattle.std.specs.Prelude.{◌≡◌, List, ℕ, length};
ghost use Rattle.cell.specs.Records.{records_of};
ghost use Rattle.netlist.specs.inner.Areas.{records_in};
ghost use Rattle.calls.specs.Work.{cleared};
ghost use Rattle.calls.specs.Calls.{merge_answer, merge_reply};
ghost use Rattle.delivery.specs.inner.Delivery.{Loaded};
ghost use Rattle.merge_call.specs.inner.Merge.{Merges};

use calls::Merged;
use refusals::Refusal;

// 12, or the byte count and the flag, for the n records of a ticket that passed.
fn merged(work: &mut [u32], n: u32, reply: &mut [u8]) -> Result<Merged, Refusal>
    requires { Loaded n work.old }
    ensures { (t : List ℕ) → records_in n work.old ≡ records_of t → Merges t work.old work.new reply.old reply.new result }
{
    let changed = merge::merge(work, n);
    let bytes = delivery::deliver(work, n, reply)?;
    Ok(Merged { bytes, changed })
}

// Merges a ticket into the reply: refusals 1 to 8 and 12, or the byte count and whether an operand was changed.
pub fn merge(ticket: &[u8], work: &mut [u32], reply: &mut [u8]) -> Result<Merged, Refusal>
    ensures value { result ≡ merge_answer (length work.old) ticket.now reply.old }
    ensures reply_after { reply.new ≡ merge_reply (length work.old) ticket.now reply.old }
    ensures work_after { work.new ≡ cleared work.old }
{
    delivery::with_work(ticket, work, reply, merged)
}
