// The bit order, after netlist/src/design.rs: the bits of a netlist, operands before readers. The marks of the walk and the order stand
// in areas of the work slice behind the records.
#![tactic(auto)]

ghost use Rattle.std.specs.Prelude.{◌≡◌, false, [], ◌∷◌, ◌≤◌, length};
ghost use Rattle.cell.specs.Records.{cell_of};
ghost use Rattle.netlist.specs.inner.Areas.{word_record, records_in};
ghost use Rattle.order.specs.inner.Code.{Ready, Walks, Clears, Sorts, visited_in, bits_by};
ghost use Rattle.order.specs.inner.Descent.{operands_of, bits_of, operand_bits};

pub use netlist::fields::Operands;
use netlist::{area, fields};
use value::{Driver, Net, Slot};

// The nets that a slot's cell reads, from the fields of its record.
pub fn operands_at(work: &[u32], s: Slot) -> Operands
    ensures { result ≡ operands_of (cell_of (word_record work.now s.0)) }
{
    fields::nets(netlist::record_in(work, s))
}

// Whether an item was visited; what is no item counts as visited.
pub fn is_visited(work: &[u32], n: u32, s: Slot) -> bool
    ensures { result ≡ visited_in n work.now s.0 }
{
    area::VISITED.get_or(work, n, s, 1) != 0
}

// Takes the marks off all items.
pub fn clear_marks(work: &mut [u32], n: u32)
    requires in_bounds { 16384 ≤ length work.old }
    requires n_bound { n ≤ 1024 }
    ensures { Clears n work.old work.new }
{
    area::VISITED.clear(work, n);
}

// Walks to a bit unless it was visited.
#[cycle(bits)]
fn walk_bit(work: &mut [u32], n: u32, s: Slot, count: u32) -> u32
    requires { Ready n count work.old }
    ensures { Walks bits_by (s.0 ∷ []) n count work.old work.new result }
{
    if is_visited(work, n, s) {
        return count;
    }
    visit_bit(work, n, s, count)
}

// Marks a bit, walks down its operands and puts the bit behind them.
#[cycle(bits)]
fn visit_bit(work: &mut [u32], n: u32, s: Slot, count: u32) -> u32
    requires ready { Ready n count work.old }
    requires s_value { visited_in n work.old s.0 ≡ false }
    ensures { Walks bits_by (s.0 ∷ []) n count work.old work.new result }
{
    let reads = operands_at(work, s);
    area::VISITED.put(work, s, 1);
    let c = walk_operands(work, n, reads, count);
    area::ORDER.put(work, Slot(c), s.0);
    c + 1
}

// Walks down the operands, the last first. Written out: a `for` would first list the three, and be longer.
#[cycle(bits)]
fn walk_operands(work: &mut [u32], n: u32, reads: Operands, count: u32) -> u32
    requires { Ready n count work.old }
    ensures { Walks bits_by (operand_bits (records_in n work.old) reads) n count work.old work.new result }
{
    let third = walk_net(work, n, reads.2, count);
    let second = walk_net(work, n, reads.1, third);
    walk_net(work, n, reads.0, second)
}

// Walks to the bit that drives a net; sources are not walked to.
#[cycle(bits)]
fn walk_net(work: &mut [u32], n: u32, x: Net, count: u32) -> u32
    requires { Ready n count work.old }
    ensures { Walks bits_by (bits_of (records_in n work.old) x) n count work.old work.new result }
{
    match x.as_cell_index() {
        Driver::Const(_) => count,
        Driver::Cell(s) => {
            if netlist::is_source(work, s) {
                return count;
            }
            walk_bit(work, n, s, count)
        }
    }
}

// `Design::topo_sort`: the bits of the first n slots in order, and their number.
pub fn topo_sort(work: &mut [u32], n: u32) -> u32
    requires in_bounds { 16384 ≤ length work.old }
    requires n_bound { n ≤ 1024 }
    ensures { Sorts n work.old work.new result }
{
    clear_marks(work, n);
    let mut count: u32 = 0;
    // A loop and no `fold`, here and in the folds of `cell_order`, `compact` and `merge`: its closure would take the work slice by `&mut` beside
    // the count, and say no more.
    for s in 0..n {
        count = walk_bit(work, n, Slot(s), count);
    }
    count
}
