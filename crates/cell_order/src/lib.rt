// The cell order, after netlist/src/design.rs: the cells of a netlist, sources first, then operands before readers, outputs last. The walk
// and its areas in the work slice are those of `order`.
#![tactic(auto)]

ghost use Rattle.std.specs.Prelude.{◌≡◌, false, [], ◌∷◌, ◌+◌, ◌≤◌, ◌<◌, length, eqb, get_or};
ghost use Rattle.netlist.specs.Shape.{is_source, is_output};
ghost use Rattle.netlist.specs.Netlist.{start_of};
ghost use Rattle.basics.specs.Lists.{slots};
ghost use Rattle.netlist.specs.inner.Areas.{records_in};
ghost use Rattle.order.specs.inner.Code.{Ready, Walks, visited_in};
ghost use Rattle.cell_order.specs.inner.Code.{SortsCells, cells_by};
ghost use Rattle.cell_order.specs.inner.Descent.{bits_in, starts_of, bit_reads, read_by, deps_from, LowestSlot, Lowers};
ghost use Rattle.cell_order.specs.inner.Starts.{starts_that, not_output, Emits, PutsSources, Free, Appends};

use netlist::area;
use value::{Driver, Net, Slot};

// The number of a slot's bit in its cell; 0 for what is no item.
pub fn bit_of(work: &[u32], n: u32, s: Slot) -> u32
    ensures { result ≡ get_or (bits_in (records_in n work.now)) s.0 0 }
{
    if s.0 < n {
        return netlist::record_in(work, s).bit.into();
    }
    0
}

// The slot where a slot's cell starts.
pub fn start_of(work: &[u32], n: u32, s: Slot) -> Slot
    ensures { result.0 ≡ start_of (bits_in (records_in n work.now)) s.0 }
{
    Slot(s.0.saturating_sub(bit_of(work, n, s)))
}

// A search for the lowest cell from a slot on, among the first n, that was not visited.
#[derive(Clone, Copy)]
struct Search<'a> {
    work: &'a [u32],
    n: u32,
    from: u32,
}

impl<'a> Search<'a> {
    // The lower of `best` and y, if y is at least `from` and was not visited.
    fn lower(&self, y: Slot, best: u32) -> u32
        ensures { Lowers self.now.n self.now.work.now self.now.from (y.0 ∷ []) best result }
    {
        if y.0 < self.from {
            return best;
        }
        if best <= y.0 {
            return best;
        }
        if order::is_visited(self.work, self.n, y) {
            return best;
        }
        y.0
    }

    // So for the start of the cell that drives a net.
    fn lower_net(&self, x: Net, best: u32) -> u32
        ensures { Lowers self.now.n self.now.work.now self.now.from (starts_of (records_in self.now.n self.now.work.now) x) best result }
    {
        match x.as_cell_index() {
            Driver::Const(_) => best,
            Driver::Cell(s) => self.lower(start_of(self.work, self.n, s), best),
        }
    }

    // So for all operands of a bit. Written out: a `for` would first list the three, and be longer.
    fn lower_bit(&self, s: Slot, best: u32) -> u32
        requires { s.0 < self.now.n }
        ensures { Lowers self.now.n self.now.work.now self.now.from (bit_reads (records_in self.now.n self.now.work.now) s.0) best result }
    {
        let reads = order::operands_at(self.work, s);
        let first = self.lower_net(reads.0, best);
        let second = self.lower_net(reads.1, first);
        self.lower_net(reads.2, second)
    }
}

// The lowest cell from a slot on that a cell reads and that was not visited, by its start. The search begins with n as the lowest so far, and makes
// the Option at its end.
fn next_dep(work: &[u32], n: u32, s: Slot, from: u32) -> Option<Slot>
    requires s_lt_n { s.0 < n }
    requires n_bound { n ≤ 1024 }
    ensures { LowestSlot n work.now from (read_by (records_in n work.now) s.0) result }
{
    let search = Search { work, n, from };
    let mut best = n;
    let mut i = s.0;
    // No `for` over s.0..n: it asks for the end once more for each bit, and what compact keeps of inputs took 12 % longer to mark.
    loop {
        best = search.lower_bit(Slot(i), best);
        i += 1;
        if bit_of(work, n, Slot(i)) == 0 {
            return (best < n).then_some(Slot(best));
        }
    }
}

// Walks to the cell that starts at a slot unless it was visited.
pub fn walk_cell(work: &mut [u32], n: u32, s: Slot, count: u32) -> u32
    requires { Ready n count work.old }
    ensures { Walks cells_by (s.0 ∷ []) n count work.old work.new result }
{
    if order::is_visited(work, n, s) {
        return count;
    }
    visit_cell(work, n, s, count)
}

// Marks a cell, walks to the cells that it reads and puts the cell behind them. `order` has the same over bits: one walk over a trait would
// call a method that calls it again, and that the borrow checker does not cover.
#[cycle(cells)]
fn visit_cell(work: &mut [u32], n: u32, s: Slot, count: u32) -> u32
    requires ready { Ready n count work.old }
    requires s_value { visited_in n work.old s.0 ≡ false }
    ensures { Walks cells_by (s.0 ∷ []) n count work.old work.new result }
{
    area::VISITED.put(work, s, 1);
    let c = walk_deps(work, n, s, 0, count);
    area::ORDER.put(work, Slot(c), s.0);
    c + 1
}

// Walks to the cells from a slot on that a cell reads, the lowest first.
#[cycle(cells)]
fn walk_deps(work: &mut [u32], n: u32, s: Slot, from: u32, count: u32) -> u32
    requires ready { Ready n count work.old }
    requires s_lt_n { s.0 < n }
    ensures { Walks cells_by (deps_from (records_in n work.old) s.0 from) n count work.old work.new result }
{
    match next_dep(work, n, s, from) {
        None => count,
        Some(x) => {
            let c = visit_cell(work, n, x, count);
            walk_deps(work, n, s, x.0 + 1, c)
        }
    }
}

// Whether a cell starts in a slot.
fn is_start(work: &[u32], n: u32, s: Slot) -> bool
    ensures { result ≡ eqb (get_or (bits_in (records_in n work.now)) s.0 0) 0 }
{
    bit_of(work, n, s) == 0
}

// Puts a slot into the order and marks it if a source starts there. This, `walk_start` and `put_output` have the test for a start alone in
// common: what each asks of the cell, and does with it, differs. One loop for the three, with the step as a closure, was tried, and the proof did
// not close: a step may be taken at the words that those before it left, and not at any.
fn put_source(work: &mut [u32], n: u32, s: Slot, count: u32) -> u32
    requires ready { Ready n count work.old }
    requires s_value { visited_in n work.old s.0 ≡ false }
    ensures { Emits (starts_that is_source (records_in n work.old) (s.0 ∷ [])) s.0 n count work.old work.new result }
{
    if is_start(work, n, s) && netlist::is_source(work, s) {
        area::VISITED.put(work, s, 1);
        area::ORDER.put(work, Slot(count), s.0);
        return count + 1;
    }
    count
}

fn put_sources(work: &mut [u32], n: u32) -> u32
    requires in_bounds { 16384 ≤ length work.old }
    requires n_bound { n ≤ 512 }
    ensures { PutsSources n work.old work.new result }
{
    order::clear_marks(work, n);
    let mut count: u32 = 0;
    for s in 0..n {
        count = put_source(work, n, Slot(s), count);
    }
    count
}

// Walks to a slot if a cell starts there that is no output.
fn walk_start(work: &mut [u32], n: u32, s: Slot, count: u32) -> u32
    requires ready { Ready n count work.old }
    requires s_lt_n { s.0 < n }
    ensures { Walks cells_by (starts_that not_output (records_in n work.old) (s.0 ∷ [])) n count work.old work.new result }
{
    if is_start(work, n, s) && !netlist::is_output(work, s) {
        return walk_cell(work, n, s, count);
    }
    count
}

fn walk_starts(work: &mut [u32], n: u32, sources: u32) -> u32
    requires { Ready n sources work.old }
    ensures { Walks cells_by (starts_that not_output (records_in n work.old) (slots n)) n sources work.old work.new result }
{
    let mut count = sources;
    for s in 0..n {
        count = walk_start(work, n, Slot(s), count);
    }
    count
}

// Puts a slot into the order if an output starts there.
fn put_output(work: &mut [u32], n: u32, s: Slot, count: u32) -> u32
    requires free { Free n count work.old }
    requires s_lt_n { s.0 < n }
    ensures { Appends (starts_that is_output (records_in n work.old) (s.0 ∷ [])) count work.old work.new result }
{
    if is_start(work, n, s) && netlist::is_output(work, s) {
        area::ORDER.put(work, Slot(count), s.0);
        return count + 1;
    }
    count
}

fn put_outputs(work: &mut [u32], n: u32, cells: u32) -> u32
    requires in_bounds { 16384 ≤ length work.old }
    requires n_bound { cells + n ≤ 1024 }
    ensures { Appends (starts_that is_output (records_in n work.old) (slots n)) cells work.old work.new result }
{
    let mut count = cells;
    for s in 0..n {
        count = put_output(work, n, Slot(s), count);
    }
    count
}

// `Design::iter_cells_topo`: the cells of the first n slots in order, by their starts, and their number.
pub fn iter_cells_topo(work: &mut [u32], n: u32) -> u32
    requires in_bounds { 16384 ≤ length work.old }
    requires n_bound { n ≤ 512 }
    ensures { SortsCells n work.old work.new result }
{
    let sources = put_sources(work, n);
    let cells = walk_starts(work, n, sources);
    put_outputs(work, n, cells)
}
