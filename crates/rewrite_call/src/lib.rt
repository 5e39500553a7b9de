// Rewriting: the rules on every gate bit, and the result compacted.
#![tactic(auto)]

ghost use Rattle.std.specs.Prelude.{◌≡◌, List, ℕ, length};
ghost use Rattle.cell.specs.Records.{records_of};
ghost use Rattle.netlist.specs.inner.Areas.{records_in};
ghost use Rattle.design.specs.Queue.{find_new_cell};
ghost use Rattle.calls.specs.Work.{cleared};
ghost use Rattle.calls.specs.Calls.{rewrite_answer, rewrite_reply};
ghost use Rattle.delivery.specs.inner.Delivery.{Loaded};
ghost use Rattle.rewrite_call.specs.inner.Rewrite.{RewritesTicket};

use refusals::Refusal;

// 9, 12, or the byte count, for the n records of a ticket that passed.
fn rewritten(work: &mut [u32], n: u32, reply: &mut [u8]) -> Result<u32, Refusal>
    requires { Loaded n work.old }
    ensures { (t : List ℕ) → records_in n work.old ≡ records_of t → RewritesTicket t work.old work.new reply.old reply.new result }
{
    let slots = rewriter::run::rewrite(work, n)?;
    delivery::deliver(work, slots, reply)
}

// Rewrites a ticket into the reply: refusals 1 to 9 and 12, or the byte count.
pub fn rewrite(ticket: &[u8], work: &mut [u32], reply: &mut [u8]) -> Result<u32, Refusal>
    ensures value { result ≡ rewrite_answer find_new_cell (length work.old) ticket.now reply.old }
    ensures reply_after { reply.new ≡ rewrite_reply find_new_cell (length work.old) ticket.now reply.old }
    ensures work_after { work.new ≡ cleared work.old }
{
    delivery::with_work(ticket, work, reply, rewritten)
}
