// What the calls have in common: their shell, which checks the ticket and wipes the work slice; a netlist put into the reply.
#![tactic(auto)]

ghost use Rattle.std.specs.Prelude.{◌≡◌, List, ℕ, ◌≤◌, length};
ghost use Rattle.refusals.specs.Refusals.{Stage};
ghost use Rattle.calls.specs.Work.{cleared};
ghost use Rattle.delivery.specs.inner.Delivery.{Delivers, Begins, Takes, StepDecides, Called, compacted_in};

use refusals::Refusal;

// The begin of every call, with any work slice: refusals 1 to 8. A slice that is too short is not touched.
pub fn begin(ticket: &[u8], work: &mut [u32]) -> Result<(), Refusal>
    ensures { Begins ticket.now work.old work.new result }
{
    if work.len() < 16384 {
        return Err(Refusal::ShortWork);
    }
    checking::verdict_of(work, ticket)
}

// The end of every call, with any work slice: its first 16,384 words are set to 0. A slice that is too short is not touched.
pub fn end(work: &mut [u32])
    ensures { work.new ≡ cleared work.old }
{
    if 16384 <= work.len() {
        work[..16384].fill(0);
    }
}

// The shell of the calls that write a reply: their begin; a ticket that passed loaded, and their own step on its n records; their end.
// `ticket`, `work` and `reply` go one by one, as C lends them: a struct of them would hold two `&mut` (`netlist/src/area.rt`).
pub fn with_work<A, F: FnOnce(&mut [u32], u32, &mut [u8]) -> Result<A, Refusal>>(
    ticket: &[u8],
    work: &mut [u32],
    reply: &mut [u8],
    step: F,
) -> Result<A, Refusal>
    requires { Takes F.FnOnce step ticket.now }
    ensures { (told : A) (own : List Stage) (bytes : List ℕ) → StepDecides F.FnOnce step told own bytes ticket.now reply.old
        → Called told own bytes ticket.now work.old work.new reply.old reply.new result }
{
    // A match: `?` would go past `end`, and of slices lent to a closure for `and_then` a proof would know nothing.
    let answer = match begin(ticket, work) {
        Ok(()) => {
            let n = netlist::load(work, ticket);
            step(work, n, reply)
        }
        Err(x) => Err(x),
    };
    end(work);
    answer
}

// Compacts the netlist of the first n slots into the reply; 12, and nothing written, if that is too short.
pub fn deliver(work: &mut [u32], n: u32, reply: &mut [u8]) -> Result<u32, Refusal>
    requires in_bounds { 16384 ≤ length work.old }
    requires n_bound { n ≤ 1024 }
    ensures { Delivers (compacted_in n work.old) work.old work.new reply.old reply.new result }
{
    let total = compact::keep(work, n);
    let bytes = total * 16;
    if reply.len() < (bytes as usize) {
        return Err(Refusal::ShortReply);
    }
    compact::compact(work, n, total, reply);
    Ok(bytes)
}
