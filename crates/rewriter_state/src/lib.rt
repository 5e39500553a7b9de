// The state of the rewriter, after `Rewriter` of netlist/src/rewrite.rs: cells, replaced nets, stamps and the cache, each a part of the work
// slice.
#![tactic(auto)]

ghost use Rattle.std.specs.Prelude.{◌≡◌, ◌+◌, ◌≤◌, ◌<◌, length, set, OnErr};
ghost use Rattle.netlist.specs.inner.Areas.{words_in};
ghost use Rattle.design.specs.Queue.{find_new_cell};
ghost use Rattle.numberer.specs.Numberer.{seek};
ghost use Rattle.rewrite.specs.Rewriter.{stamp, find_cell as find_cell_of};
ghost use Rattle.numberer.specs.inner.Words.{Inserts};
ghost use Rattle.refusals.specs.declared.Refusal.TheVariants.{SlotsExhausted};
ghost use Rattle.rewriter_state.specs.inner.Words.{stamps_at, rewriter_in, Held, ClearsStamps, Enters, ReadySlot, Replaces, Stays, Becomes, Stands, with_entry, with_stamp};

use cell::Cell;
use netlist::area;
use refusals::Refusal;
use value::{Driver, Net, Slot};

// How far the rewriter is: the ticket's slots, all slots, the entries of the cache, the last stamp. It goes beside the work slice, and what holds of
// the two is said by clauses. Where the words are written a struct of both would hold a `&mut`; where they are only read, the look-ups take the two
// as their definitions do (netlist/src/area.rt).
#[derive(Clone, Copy)]
pub struct Extent {
    pub tickets: u32,
    pub slots: u32,
    pub entries: u32,
    pub clock: u32,
}

// Rewriting needs more slots than there are.
#[derive(Clone, Copy)]
pub struct Full;

impl From<Full> for Refusal {
    ghost from_gives = { λ _ r. r ≡ SlotsExhausted };

    fn from(_full: Full) -> Refusal {
        Refusal::SlotsExhausted
    }
}

// Takes the stamps off the slots. As `order::clear_marks`: `Area::clear` at its own area and under its own clause.
pub fn clear_stamps(work: &mut [u32], n: u32)
    requires in_bounds { 16384 ≤ length work.old }
    requires n_bound { n ≤ 1024 }
    ensures { ClearsStamps n work.old work.new }
{
    area::FIGURES.clear(work, n);
}

// The stamp of a net; a constant has 0, which is no stamp, as in the definition: a word is all that a slot has.
#[tactic(auto, unfolding(rewrite::specs::Rewriter::stamp))]
fn stamp_of(work: &[u32], x: Extent, n: Net) -> u32
    ensures { result ≡ stamp (words_in stamps_at x.slots work.now) n }
{
    match n.as_cell_index() {
        Driver::Const(_) => 0,
        Driver::Cell(s) => area::FIGURES.get_or(work, x.slots, s, 0),
    }
}

// `Design::find_new_cell`
fn find_new_cell(work: &[u32], x: Extent, n: Net) -> Option<Cell>
    ensures { result ≡ find_new_cell (rewriter_in x work.now).design n }
{
    match design::queue::map_net_new(work, x.tickets, n).as_cell_index() {
        Driver::Const(_) => None,
        Driver::Cell(s) => Some(if s.0 < x.slots {
            netlist::cell_in(work, s)
        } else {
            Cell::Input(0)
        }),
    }
}

// `Rewriter::find_cell`
#[tactic(auto, unfolding(rewrite::specs::Rewriter::find_cell, crate::specs::inner::Words::rewriter_in))]
pub fn find_cell(work: &[u32], x: Extent, n: Net) -> Option<Cell>
    ensures { result ≡ find_cell_of find_new_cell (rewriter_in x work.now) n }
{
    if stamp_of(work, x, n) == 0 {
        return None;
    }
    find_new_cell(work, x, n)
}

// The net that the cache has for a cell.
pub fn known(work: &[u32], x: Extent, c: Cell) -> Option<Net>
    requires { Held x work.now }
    ensures { result ≡ seek (rewriter_in x work.now).cache c }
{
    numberer::find(work, x.entries, c.record(0))
}

// Puts a cell into the cache for the net of a slot.
fn remember(work: &mut [u32], x: &mut Extent, s: Slot, c: Cell)
    requires in_bounds { 16384 ≤ length work.old }
    requires entries_bound { x.old.entries < 1024 }
    requires s_bound { s.0 < 1024 }
    ensures stored { Inserts x.old.entries s.0 c work.old work.new }
    ensures counted { x.new ≡ with_entry x.old }
{
    numberer::insert(work, x.entries, c.record(s.0 as u16));
    x.entries += 1;
}

// Gives a slot the next stamp.
fn stamp(work: &mut [u32], x: &mut Extent, s: Slot)
    requires { x.old.clock < 1024 }
    ensures stored { work.new ≡ set work.old (stamps_at + s.0) (x.old.clock + 1) }
    ensures counted { x.new ≡ with_stamp x.old }
{
    x.clock += 1;
    area::FIGURES.put(work, s, x.clock);
}

// Adds a cell in the next slot, if there is one, and gives its net.
pub fn enter(work: &mut [u32], x: &mut Extent, c: Cell) -> Result<Net, Full>
    requires { Held x.old work.old }
    ensures entered { Enters x.old x.new work.old work.new c result }
    ensures full { OnErr result (x.new ≡ x.old) }
{
    if x.slots == 1024 {
        return Err(Full);
    }
    let s = Slot(x.slots);
    netlist::put_record(work, s, c.record(0));
    remember(work, x, s, c);
    stamp(work, x, s);
    x.slots += 1;
    Ok(Net::from_cell_index(s))
}

// Finishes a slot whose net is replaced.
pub fn replace(work: &mut [u32], x: &mut Extent, s: Slot, n: Net)
    requires { ReadySlot x.old s.0 work.old }
    ensures { Replaces s.0 x.old x.new work.old work.new n }
{
    design::queue::replace_net(work, x.tickets, s, n);
    stamp(work, x, s);
}

// Finishes a slot whose cell stays: the cache has it in the form c.
pub fn stay(work: &mut [u32], x: &mut Extent, s: Slot, c: Cell)
    requires { ReadySlot x.old s.0 work.old }
    ensures { Stays s.0 x.old x.new work.old work.new c }
{
    remember(work, x, s, c);
    stamp(work, x, s);
}

// Finishes a slot whose cell has become another one; its bit number stays.
pub fn become_cell(work: &mut [u32], x: &mut Extent, s: Slot, c: Cell)
    requires { ReadySlot x.old s.0 work.old }
    ensures { Becomes s.0 x.old x.new work.old work.new c }
{
    let bit = netlist::record_in(work, s).bit;
    netlist::put_record(work, s, c.record(bit));
    stay(work, x, s, c);
}

// The nets of cells that were added stand for themselves.
pub fn stand(work: &mut [u32], x: Extent)
    requires { Held x work.old }
    ensures { Stands x work.old work.new }
{
    design::queue::stand(work, x.tickets, x.slots);
}
