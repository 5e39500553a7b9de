// Levels of a netlist: the evaluator.
#![tactic(auto)]

ghost use Rattle.std.specs.Prelude.{◌≡◌, ◌+◌, ◌≤◌, ◌<◌, length, get_or, set};
ghost use Rattle.logic.specs.Levels.{byte_of, level_of};
ghost use Rattle.netlist.specs.inner.Areas.{records_in, words_in, order_at, figures_at, Within, mixes_at, visited_at};
ghost use Rattle.levels.specs.Evaluate.{net_level, control_level, cell_level, given_levels};
ghost use Rattle.levels.specs.Fold.{cells_in, of_kind, levels_at, input_at, placed_level, fold_in, slot_level, bit_levels};

use cell::Cell;
use logic::Trit;
use netlist::area;
use value::{ControlNet, Driver, Net, Slot};

// How many of the first n records have a kind, by its byte: a `Sort` would be a narrower parameter.
pub fn count_kind(work: &[u32], n: u32, kind: u8) -> u32
    requires { n ≤ 512 }
    ensures { result ≡ length (of_kind kind (records_in n work.now)) }
{
    (0..n)
        .filter(|s| netlist::record_in(work, Slot(*s)).kind == kind)
        .count() as u32
}

// The level of a slot; past the first n it is undefined.
pub fn level_at(work: &[u32], n: u32, s: Slot) -> Trit
    ensures { result ≡ get_or (levels_at n work.now) s.0 Trit.Undef }
{
    Trit::from(area::FIGURES.get_or(work, n, s, u32::from(Trit::Undef)))
}

fn put_level(work: &mut [u32], s: Slot, t: Trit)
    ensures { work.new ≡ set work.old (figures_at + s.0) (byte_of t) }
{
    area::FIGURES.put(work, s, u32::from(t));
}

// The levels of the first n slots, as they stand.
#[derive(Clone, Copy)]
struct SlotLevels<'a> {
    work: &'a [u32],
    n: u32,
}

impl<'a> SlotLevels<'a> {
    fn of_net(self, x: Net) -> Trit
        ensures { result ≡ net_level (levels_at self.entry.n self.entry.work.now) x }
    {
        match x.as_cell_index() {
            Driver::Const(t) => t,
            Driver::Cell(s) => level_at(self.work, self.n, s),
        }
    }

    fn of_control(self, x: ControlNet) -> Trit
        ensures { result ≡ control_level (net_level (levels_at self.entry.n self.entry.work.now)) x }
    {
        match x {
            ControlNet::Pos(y) => self.of_net(y),
            ControlNet::Neg(y) => !self.of_net(y),
        }
    }

    // The level of a cell from those of its operands; an input has its own.
    fn of_cell(self, own: Trit, c: Cell) -> Trit
        ensures { result ≡ cell_level (net_level (levels_at self.entry.n self.entry.work.now)) own c }
    {
        match c {
            Cell::Input(_) => own,
            Cell::Output(x, _) => self.of_net(x),
            Cell::Buf(x) => self.of_net(x),
            Cell::Not(x) => !self.of_net(x),
            Cell::And(x, y) => self.of_net(x) & self.of_net(y),
            Cell::Or(x, y) => self.of_net(x) | self.of_net(y),
            Cell::Xor(x, y) => self.of_net(x) ^ self.of_net(y),
            Cell::Mux(x, y, z) => self.of_net(x).mux(self.of_net(y), self.of_net(z)),
            Cell::Aig(p, q) => self.of_control(p) & self.of_control(q),
        }
    }
}

// The level of a slot anew.
fn update(work: &mut [u32], n: u32, s: Slot)
    requires in_bounds { 16384 ≤ length work.old }
    requires n_bound { n ≤ 512 }
    ensures work_after { levels_at n work.new ≡ set (levels_at n work.old) s.0 (slot_level (cells_in n work.old) (levels_at n work.old) s.0) }
    ensures within { Within figures_at mixes_at work.old work.new }
{
    if s.0 < n {
        let own = level_at(work, n, s);
        let c = netlist::cell_in(work, s);
        let t = SlotLevels { work, n }.of_cell(own, c);
        put_level(work, s, t);
    }
}

// The level of each slot of an order of `count` slots, one after another. By index, not over the order as a slice: it lies in the slice that
// `update` writes.
fn fold(work: &mut [u32], n: u32, count: u32)
    requires in_bounds { 16384 ≤ length work.old }
    requires n_bound { n ≤ 512 }
    requires count_bound { count ≤ 1024 }
    ensures work_after { levels_at n work.new ≡ fold_in (slot_level (cells_in n work.old)) (words_in order_at count work.old) (levels_at n work.old) }
    ensures within { Within figures_at mixes_at work.old work.new }
{
    for i in 0..count {
        let s = area::ORDER.get(work, Slot(i));
        update(work, n, Slot(s));
    }
}

// A byte of the stimulus as a level.
#[tactic(auto, unfolding(logic::specs::Levels::level_of))]
fn stimulus_level(stimulus: &[u8], k: u32) -> Trit
    ensures { result ≡ level_of (get_or stimulus.now k 2) }
{
    stimulus
        .get(k as usize)
        .map_or(Trit::Undef, |b| Trit::from(u32::from(*b)))
}

// Puts byte k of the stimulus to a slot that holds an input; any other slot is undefined. The answer is whether the byte is taken.
fn place_at(work: &mut [u32], s: Slot, stimulus: &[u8], k: u32) -> bool
    ensures value { result ≡ input_at work.old s.0 }
    ensures work_after { work.new ≡ set work.old (figures_at + s.0) (byte_of (placed_level work.old s.0 stimulus.now k)) }
{
    if netlist::is_source(work, s) {
        put_level(work, s, stimulus_level(stimulus, k));
        return true;
    }
    put_level(work, s, Trit::Undef);
    false
}

// Puts the stimulus to the inputs, a byte for each, in slot order.
fn place(work: &mut [u32], n: u32, stimulus: &[u8])
    requires in_bounds { 16384 ≤ length work.old }
    requires n_bound { n ≤ 512 }
    ensures work_after { levels_at n work.new ≡ given_levels (cells_in n work.old) stimulus.now }
    ensures within { Within figures_at mixes_at work.old work.new }
{
    let mut k: u32 = 0;
    // Two counts: how many bytes are taken depends on what the slots hold.
    for s in 0..n {
        k += u32::from(place_at(work, Slot(s), stimulus, k));
    }
}

// The levels of all slots for a stimulus.
pub fn evaluate(work: &mut [u32], n: u32, stimulus: &[u8])
    requires in_bounds { 16384 ≤ length work.old }
    requires n_bound { n ≤ 512 }
    ensures work_after { levels_at n work.new ≡ bit_levels (cells_in n work.old) (given_levels (cells_in n work.old) stimulus.now) }
    ensures within { Within visited_at mixes_at work.old work.new }
{
    let count = order::topo_sort(work, n);
    place(work, n, stimulus);
    fold(work, n, count);
}
