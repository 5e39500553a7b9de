// Replaced nets, a word a slot. A net that is not replaced stands for itself.
ghost use Rattle.std.specs.Prelude.{◌≡◌, ℕ, ◌+◌, ◌≤◌, ◌<◌, length, get_or, set};
ghost use Rattle.value.specs.Value.{driver};
ghost use Rattle.basics.specs.Lists.{tabulate};
ghost use Rattle.netlist.specs.inner.Areas.{store_words, Within, figures_at, replaced_at, visited_at};
ghost use Rattle.design.specs.Queue.{net_in, driven_to, map_net_new, eq_record, did_change};
ghost use Rattle.netlist.specs.inner.Fields.{renamed_fields};
ghost use Rattle.design.specs.inner.Words.{netlist_in, replaced_in, design_in, applied_in, Applies};

use cell::Record;
use netlist::area;
use netlist::fields::{self, Operands};
use value::{Driver, Net, Slot};

// The nets of the slots from one up to another stand for themselves.
pub fn stand(work: &mut [u32], from: u32, to: u32)
    requires in_bounds { 16384 ≤ length work.old }
    requires to_bound { to ≤ 1024 }
    ensures own { (i : ℕ) → from ≤ i → i < to → get_or work.new (replaced_at + i) 0 ≡ i + 2 }
    ensures within { Within (replaced_at + from) figures_at work.old work.new }
{
    for s in from..to {
        area::REPLACED.put(work, Slot(s), Net::from_cell_index(Slot(s)).0);
    }
}

// Nothing is replaced yet.
pub fn unchanged(work: &mut [u32], n: u32)
    requires in_bounds { 16384 ≤ length work.old }
    requires n_bound { n ≤ 1024 }
    ensures work_after { replaced_in n work.new ≡ tabulate net_in n }
    ensures within { Within replaced_at figures_at work.old work.new }
{
    stand(work, 0, n);
}

// Has a slot's net replaced.
pub fn replace_net(work: &mut [u32], n: u32, s: Slot, x: Net)
    requires in_bounds { 16384 ≤ length work.old }
    requires n_bound { n ≤ 1024 }
    requires s_lt_n { s.0 < n }
    ensures work_after { replaced_in n work.new ≡ set (replaced_in n work.old) s.0 x }
    ensures within { Within replaced_at figures_at work.old work.new }
{
    area::REPLACED.put(work, s, x.0);
}

// What a net is replaced by, in one step.
fn replaced_by(work: &[u32], n: u32, x: Net) -> Net
    ensures { result ≡ driven_to (replaced_in n work.now) x (driver x) }
{
    match x.as_cell_index() {
        Driver::Const(_) => x,
        Driver::Cell(s) => Net(area::REPLACED.get_or(work, n, s, x.0)),
    }
}

// Where a net's replacements end.
pub fn map_net_new(work: &[u32], n: u32, x: Net) -> Net
    ensures { result ≡ map_net_new (replaced_in n work.now) x }
{
    let mut y = x;
    for _ in 0..n {
        let z = replaced_by(work, n, y);
        if z == y {
            return y;
        }
        y = z;
    }
    y
}

// Equality of records but for the bit: a derived `==` would compare that too.
pub fn record_eq(x: Record, y: Record) -> bool
    ensures { result ≡ eq_record x y }
{
    let heads = (x.kind == y.kind) & (x.flags == y.flags);
    let pair = heads & (x.a == y.a);
    pair & (x.b == y.b) & (x.c == y.c)
}

// A cell's record with the nets that its operands are replaced by.
pub fn replaced_record(work: &[u32], n: u32, r: Record) -> Record
    ensures { result ≡ renamed_fields (map_net_new (replaced_in n work.now)) r }
{
    fields::renamed(r, |x| map_net_new(work, n, x))
}

// Writes such a record into its slot. Not by `replaced_record`: what a call has just stored byte by byte would be read back whole, and that
// waits for the stores: a quarter of the time of a ticket of inputs.
fn put_replaced(work: &mut [u32], n: u32, s: Slot, r: Record) -> Record
    ensures value { result ≡ renamed_fields (map_net_new (replaced_in n work.old)) r }
    ensures work_after { work.new ≡ store_words work.old s.0 result }
{
    let Operands(a, b, c) = fields::nets(r);
    let x = fields::with_nets(
        r,
        map_net_new(work, n, a),
        map_net_new(work, n, b),
        map_net_new(work, n, c),
    );
    netlist::put_record(work, s, x);
    x
}

// Puts the replacements into one slot, and says whether there was one.
fn apply_to(work: &mut [u32], n: u32, s: Slot) -> bool
    ensures { Applies n s.0 work.old work.new result }
{
    let old = fields::plain(netlist::record_in(work, s));
    let r = put_replaced(work, n, s, old);
    !record_eq(r, old)
}

// Puts the replacements into all slots, and says whether there was one.
pub fn apply(work: &mut [u32], n: u32) -> bool
    requires in_bounds { 16384 ≤ length work.old }
    requires n_bound { n ≤ 1024 }
    ensures work_after { netlist_in n work.new ≡ applied_in n work.old }
    ensures value { result ≡ did_change (design_in n work.old) }
    ensures within { Within 0 visited_at work.old work.new }
{
    // No `any`: it would stop at the first slot that is changed.
    let mut changed = false;
    for s in 0..n {
        let more = apply_to(work, n, Slot(s));
        changed = changed | more;
    }
    changed
}
