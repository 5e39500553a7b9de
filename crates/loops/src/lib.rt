// The search for loops (refusal 8): a bit that reaches itself through operands. A walk from a slot goes down its edges and
// marks the slots in the first words of the work slice: 0 not visited, 1 open, and from 2 on finished, by the stamp of a clock.
#![tactic(auto)]

ghost use Rattle.std.specs.Prelude.{◌≡◌, ◌≤◌, ◌<◌, length};
ghost use Rattle.kinds.specs.Kinds.{field_number};
ghost use Rattle.cell.specs.Records.{record_at, records_of};
ghost use Rattle.loops.specs.inner.Search.{Searchable, Finds};
ghost use Rattle.loops.specs.inner.Walk.{stops_at, Ready, Coming, Visits, Meets, Follows, Cleared, Frees, Tells};

use cell::Record;
use kinds::Field;
use netlist::area::MARKS;
use value::Slot;

// A walk over the slots of a ticket. An open slot ends it where it is met: each does, or one alone.
#[derive(Clone, Copy)]
struct Walk<'a> {
    ticket: &'a [u8],
    stop: Option<Slot>,
}

impl<'a> Walk<'a> {
    // Whether an open slot ends the walk that meets it.
    #[tactic(auto, unfolding(crate::specs::inner::Walk::stops_at))]
    fn stops(&self, x: Slot) -> bool
        ensures { result ≡ stops_at self.now.stop x.0 }
    {
        self.stop.is_none_or(|t| t == x)
    }

    // Opens a slot that was not visited, follows its edges and finishes it. This and the next three answer the next stamp, or 0
    // where the walk met an open slot that ends it. A number: with an Option and `?` a library of this crate alone, timed on a busy
    // machine and not by `tools/bench`, took 3 to 5 % longer on full tickets (ladder 7.1 to 7.5 µs, muxes 8.5 to 8.9, the late loop
    // 1,659 to 1,730).
    #[cycle(descent)]
    fn visit(&self, work: &mut [u32], s: Slot, clock: u32) -> u32
        requires { Ready (records_of self.now.ticket.now) self.now.stop clock work.old s.0 0 }
        ensures { Visits (records_of self.now.ticket.now) self.now.stop clock work.old work.new s.0 result }
    {
        MARKS.put(work, s, 1);
        let next = self.visit_edges(work, s, clock);
        if next == 0 {
            return 0;
        }
        MARKS.put(work, s, next);
        next + 1
    }

    // Follows the edges of an open slot. No `for` over the fields, for the time that checking took (docs/DESIGN-PASS.md, "A
    // bar of speed").
    #[cycle(descent)]
    fn visit_edges(&self, work: &mut [u32], s: Slot, clock: u32) -> u32
        requires { Ready (records_of self.now.ticket.now) self.now.stop clock work.old s.0 1 }
        ensures { Follows (records_of self.now.ticket.now) self.now.stop clock work.old work.new s.0 1 3 result }
    {
        let r = cell::record_at(self.ticket, s);
        let c = self.visit_edge(work, s, r, Field::C, clock);
        if c == 0 {
            return 0;
        }
        let d = self.visit_edge(work, s, r, Field::B, c);
        if d == 0 {
            return 0;
        }
        self.visit_edge(work, s, r, Field::A, d)
    }

    // Follows the edge of an open slot, whose record is r, by field f.
    #[cycle(descent)]
    fn visit_edge(&self, work: &mut [u32], s: Slot, r: Record, f: Field, clock: u32) -> u32
        requires ready { Ready (records_of self.now.ticket.now) self.now.stop clock work.old s.0 1 }
        requires r_value { r ≡ record_at self.now.ticket.now s.0 }
        ensures { Follows (records_of self.now.ticket.now) self.now.stop clock work.old work.new s.0 (field_number f) (field_number f) result }
    {
        match r.edge_at(f) {
            None => clock,
            Some(x) => self.meet(work, x, clock),
        }
    }

    // Visits a slot unless it was visited, and says whether the walk ends there.
    #[cycle(descent)]
    fn meet(&self, work: &mut [u32], x: Slot, clock: u32) -> u32
        requires { Coming (records_of self.now.ticket.now) self.now.stop clock work.old x.0 }
        ensures { Meets (records_of self.now.ticket.now) self.now.stop clock work.old work.new x.0 result }
    {
        match MARKS.get(work, x) {
            0 => self.visit(work, x, clock),
            1 if self.stops(x) => 0,
            _ => clock,
        }
    }
}

// Takes the marks off all slots.
fn clear(work: &mut [u32], n: u32)
    requires { (n ≤ 512) × (16384 ≤ length work.old) }
    ensures { Cleared n work.old work.new }
{
    MARKS.clear(work, n);
}

// Whether a walk over all slots ends, since it meets no open slot. Then there is no loop.
fn walk_all(work: &mut [u32], ticket: &[u8], n: u32) -> bool
    requires { Searchable (records_of ticket.now) n work.old }
    ensures { Frees (records_of ticket.now) work.old work.new result }
{
    clear(work, n);
    let walk = Walk { ticket, stop: None };
    let mut clock: u32 = 2;
    for i in 0..n {
        clock = walk.meet(work, Slot(i), clock);
        if clock == 0 {
            return false;
        }
    }
    true
}

fn is_on_loop(work: &mut [u32], ticket: &[u8], n: u32, s: Slot) -> bool
    requires searchable { Searchable (records_of ticket.now) n work.old }
    requires s_lt_n { s.0 < n }
    ensures { Tells (records_of ticket.now) work.old work.new s.0 result }
{
    clear(work, n);
    let walk = Walk {
        ticket,
        stop: Some(s),
    };
    walk.visit(work, s, 2) == 0
}

// Tried by `find`: what its closure leaves in the words was not proved.
fn first_on_loop(work: &mut [u32], ticket: &[u8], n: u32) -> Option<Slot>
    requires { Searchable (records_of ticket.now) n work.old }
    ensures { Finds (records_of ticket.now) work.old work.new result }
{
    for s in 0..n {
        if is_on_loop(work, ticket, n, Slot(s)) {
            return Some(Slot(s));
        }
    }
    None
}

// The lowest slot on a loop; n is the number of records, handed on beside the ticket: each function would else count them anew, with
// their bound. No struct of both with the fact `Searchable`: that is of the words too, and one that held the `&mut` would owe in every
// clause that it still holds the same reference. One walk over all slots shows that there is none; only where it does not, each slot
// is asked for itself.
pub fn find_loop(work: &mut [u32], ticket: &[u8], n: u32) -> Option<Slot>
    requires { Searchable (records_of ticket.now) n work.old }
    ensures { Finds (records_of ticket.now) work.old work.new result }
{
    if walk_all(work, ticket, n) {
        return None;
    }
    first_on_loop(work, ticket, n)
}
