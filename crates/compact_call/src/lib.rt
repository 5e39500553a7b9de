// Compacting: inputs, outputs and the whole cells that they reach.
#![tactic(auto)]

ghost use Rattle.std.specs.Prelude.{◌≡◌, length};
ghost use Rattle.calls.specs.Work.{cleared};
ghost use Rattle.calls.specs.Calls.{compact_answer, compact_reply};

use refusals::Refusal;

// Compacts a ticket into the reply: refusals 1 to 8 and 12, or the byte count.
pub fn compact(ticket: &[u8], work: &mut [u32], reply: &mut [u8]) -> Result<u32, Refusal>
    ensures value { result ≡ compact_answer (length work.old) ticket.now reply.old }
    ensures reply_after { reply.new ≡ compact_reply (length work.old) ticket.now reply.old }
    ensures work_after { work.new ≡ cleared work.old }
{
    delivery::with_work(ticket, work, reply, delivery::deliver)
}
