// `Rewriter::run`: the items of the bit order one after another, and the changes applied.
ghost use Rattle.std.specs.Prelude.{◌≡◌, ◌≤◌, ◌<◌, length, Ok};
ghost use Rattle.netlist.specs.inner.Areas.{records_in};
ghost use Rattle.netlist.specs.Netlist.{cell_in};
ghost use Rattle.netlist.specs.Shape.{visit_mut, is_splittable};
ghost use Rattle.design.specs.Queue.{map_net_new};
ghost use Rattle.refusals.specs.Refusals.{first_of};
ghost use Rattle.checking.specs.Checking.{netlist_stages};
ghost use Rattle.rewriter_state.specs.inner.Words.{rewriter_in};
ghost use Rattle.rewriter_cycle.specs.inner.Cycle.{Running};
ghost use Rattle.rewriter.specs.inner.Run.{ReadyCell, ReadyItem, ReadyItems, RunsBit, RunsCell, RunsItem, RunsItems, AppliesAll, Begins, Rewrites};

use cell::Cell;
use netlist::area;
use rewriter_cycle::Processed;
use rewriter_state::{Extent, Full};
use value::Slot;

fn is_splittable(c: Cell) -> bool
    ensures { result ≡ is_splittable c }
{
    !matches!(c, Cell::Input(_) | Cell::Output(_, _) | Cell::Aig(_, _))
}

// The cell of a slot with the nets that its operands are replaced by.
fn mapped_cell(work: &[u32], x: Extent, s: Slot) -> Cell
    requires { s.0 < x.slots }
    ensures { result ≡ visit_mut (map_net_new (rewriter_in x work.now).design.replaced) (cell_in (rewriter_in x work.now).design.cells s.0) }
{
    let own = netlist::record_in(work, s);
    Cell::from(design::queue::replaced_record(work, x.tickets, own))
}

// A bit of a gate that is cut into bits: it is added anew.
fn run_bit(work: &mut [u32], x: &mut Extent, s: Slot, c: Cell) -> Result<(), Full>
    requires { ReadyCell x.old s.0 work.old c }
    ensures { RunsBit x.old x.new s.0 work.old work.new c result }
{
    let n = rewriter_cycle::add_cell(work, x, c)?;
    rewriter_state::replace(work, x, s, n);
    Ok(())
}

// An and-inverter: it is rewritten in its slot.
fn run_cell(work: &mut [u32], x: &mut Extent, s: Slot, c: Cell) -> Result<(), Full>
    requires { ReadyCell x.old s.0 work.old c }
    ensures { RunsCell x.old x.new s.0 work.old work.new c result }
{
    match rewriter_cycle::process_cell(work, x, c)? {
        Processed::None => rewriter_state::stay(work, x, s, c),
        Processed::Cell(d) => rewriter_state::become_cell(work, x, s, d),
        Processed::Value(n) => rewriter_state::replace(work, x, s, n),
    }
    Ok(())
}

fn run_item(work: &mut [u32], x: &mut Extent, s: Slot) -> Result<(), Full>
    requires { ReadyItem x.old s.0 work.old }
    ensures { RunsItem x.old x.new s.0 work.old work.new result }
{
    let c = mapped_cell(work, *x, s);
    if netlist::has_effects(c) {
        return Ok(());
    }
    if is_splittable(c) {
        return run_bit(work, x, s, c);
    }
    run_cell(work, x, s, c)
}

// The items whose slots stand in the order area; by index, as `levels::fold`.
fn run_items(work: &mut [u32], x: &mut Extent, count: u32) -> Result<(), Full>
    requires { ReadyItems x.old count work.old }
    ensures { RunsItems x.old x.new count work.old work.new result }
{
    for j in 0..count {
        let s = area::ORDER.get(work, Slot(j));
        run_item(work, x, Slot(s))?;
    }
    Ok(())
}

// Puts the replacements into all slots.
fn apply_all(work: &mut [u32], x: Extent)
    requires { Running x work.old }
    ensures { AppliesAll x work.old work.new }
{
    rewriter_state::stand(work, x);
    design::queue::apply(work, x.slots);
}

// The order of the items; nothing is replaced, and no slot stamped.
fn begin(work: &mut [u32], n: u32) -> u32
    requires in_bounds { 16384 ≤ length work.old }
    requires n_bound { n ≤ 512 }
    ensures { Begins n work.old work.new result }
{
    let count = order::topo_sort(work, n);
    design::queue::unchanged(work, n);
    rewriter_state::clear_stamps(work, n);
    count
}

// `Design::rewrite` up to `compact`: the number of slots that it has taken.
pub fn rewrite(work: &mut [u32], n: u32) -> Result<u32, Full>
    requires in_bounds { 16384 ≤ length work.old }
    requires n_bound { n ≤ 512 }
    requires work_value { first_of (netlist_stages (records_in n work.old)) ≡ Ok tt }
    ensures { Rewrites n work.old work.new result }
{
    let count = begin(work, n);
    let mut x = Extent {
        tickets: n,
        slots: n,
        entries: 0,
        clock: 0,
    };
    run_items(work, &mut x, count)?;
    apply_all(work, x);
    Ok(x.slots)
}
