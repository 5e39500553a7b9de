// Merging of equal cells, after generic/src/merge.rs. The keys that were looked for and not found are the numberer's.
#![tactic(auto)]

ghost use Rattle.std.specs.Prelude.{◌≡◌, ◌+◌, ◌-◌, ◌≤◌, ◌<◌, length};
ghost use Rattle.cell.specs.Records.{cell_record};
ghost use Rattle.netlist.specs.inner.Areas.{store_words, keys_at};
ghost use Rattle.design.specs.inner.Words.{netlist_in};
ghost use Rattle.merge.specs.inner.Words.{turned, key_fields, key_in, Ready, Keyed, Keys, Numbers, NumbersAll, Merges, width_of, load_of, MergesNext, Sequenced, Ordered, MergesCells, MergesAll, MergesNetlist};

use cell::Record;
use netlist::{area, fields};
use value::Slot;

// The flags bytes of an and-inverter with one inverted operand. Both tests below are at the byte: of two control nets each test would take the
// signs out again.
const FIRST_INVERTED: u8 = 1;

const SECOND_INVERTED: u8 = 2;

// Whether a commutative cell's operands are exchanged in its key; its record has nothing in fields that its kind does not use.
fn is_turned(r: Record) -> bool
    ensures { result ≡ turned r }
{
    let descends = (r.flags != SECOND_INVERTED) & (r.b < r.a);
    kinds::operands_commute(r.kind) & ((r.flags == FIRST_INVERTED) | descends)
}

// The record of the key of a cell's record, with a bit of its own.
fn key_record(bit: u16, r: Record) -> Record
    ensures { result ≡ key_fields bit r }
{
    let turned = is_turned(r);
    Record {
        flags: basics::pick(r.flags == FIRST_INVERTED, SECOND_INVERTED, r.flags),
        bit,
        a: basics::pick(turned, r.b, r.a),
        b: basics::pick(turned, r.a, r.b),
        ..r
    }
}

// Puts the key of a slot, by the nets that are replaced so far, into its place.
fn put_key(work: &mut [u32], n: u32, s: Slot)
    requires n_bound { n ≤ 512 }
    requires s_lt_n { s.0 < n }
    ensures { work.new ≡ store_words work.old (keys_at + s.0) (cell_record s.0 (key_in n work.old s.0)) }
{
    let own = fields::plain(netlist::record_in(work, s));
    let key = key_record(s.0 as u16, design::queue::replaced_record(work, n, own));
    netlist::put_record(work, Slot(area::KEYS + s.0), key);
}

// The number behind the slots of the cell that starts at a slot: the end of a range, and no `Slot`, as it may be n.
fn cell_end(work: &[u32], n: u32, s: Slot) -> u32
    requires { s.0 < n }
    ensures value { result ≡ s.0 + width_of (netlist_in n work.now).bits s.0 }
    ensures upper_bound { result ≤ n }
{
    (s.0 + 1..n)
        .find(|e| netlist::record_in(work, Slot(*e)).bit == 0)
        .unwrap_or(n)
}

// Puts the keys of the slots from s up to e into their places, before the first of them is looked for.
fn put_keys(work: &mut [u32], n: u32, s: Slot, e: u32)
    requires in_bounds { 16384 ≤ length work.old }
    requires n_bound { n ≤ 512 }
    requires e_le_n { e ≤ n }
    ensures { Keys n s.0 e work.old work.new }
{
    for i in s.0..e {
        put_key(work, n, Slot(i));
    }
}

// Looks for the key in a slot's place: the slot's net is replaced by the net that has it, or the key is entered for it.
fn find_or_insert(work: &mut [u32], n: u32, k: u32, s: Slot) -> u32
    requires ready { Ready n k work.old }
    requires k_bound { k < 1024 }
    requires s_lt_n { s.0 < n }
    requires keyed { Keyed s.0 (s.0 + 1) work.old }
    ensures { Numbers n k s.0 work.old work.new result }
{
    let key = netlist::record_in(work, Slot(area::KEYS + s.0));
    match numberer::find(work, k, key) {
        Some(x) => {
            design::queue::replace_net(work, n, s, x);
            k
        }
        None => {
            numberer::insert(work, k, key);
            k + 1
        }
    }
}

// Looks for the keys of the slots from s up to e one after another.
fn find_or_insert_all(work: &mut [u32], n: u32, k: u32, s: Slot, e: u32) -> u32
    requires ready { Ready n k work.old }
    requires keyed { Keyed s.0 e work.old }
    requires s_le_e { s.0 ≤ e }
    requires e_le_n { e ≤ n }
    requires s_bound { k + (e - s.0) ≤ 1024 }
    ensures { NumbersAll n k s.0 e work.old work.new result }
{
    let mut count = k;
    for i in s.0..e {
        count = find_or_insert(work, n, count, Slot(i));
    }
    count
}

// Merges the cell that starts at a slot: all its keys are made before the first is looked for.
fn merge_cell(work: &mut [u32], n: u32, k: u32, s: Slot) -> u32
    requires ready { Ready n k work.old }
    requires s_lt_n { s.0 < n }
    requires s_bound { k + width_of (netlist_in n work.old).bits s.0 ≤ 1024 }
    ensures { Merges n k s.0 work.old work.new result }
{
    let e = cell_end(work, n, s);
    put_keys(work, n, s, e);
    find_or_insert_all(work, n, k, s, e)
}

// Merges a cell unless it has effects.
fn merge_next(work: &mut [u32], n: u32, k: u32, s: Slot) -> u32
    requires ready { Ready n k work.old }
    requires s_lt_n { s.0 < n }
    requires s_bound { k + load_of (netlist_in n work.old) s.0 ≤ 1024 }
    ensures { MergesNext n k s.0 work.old work.new result }
{
    if netlist::has_effects(netlist::cell_in(work, s)) {
        return k;
    }
    merge_cell(work, n, k, s)
}

// Merges the cells whose slots stand in the order area, one after another; by index, as `levels::fold`.
fn merge_cells(work: &mut [u32], n: u32, count: u32)
    requires { Ordered n count work.old }
    ensures { MergesCells n count work.old work.new }
{
    let mut k: u32 = 0;
    for j in 0..count {
        let s = area::ORDER.get(work, Slot(j));
        k = merge_next(work, n, k, Slot(s));
    }
}

// Merges all cells: their nets are replaced, and no operand is yet.
fn merge_all(work: &mut [u32], n: u32)
    requires in_bounds { 16384 ≤ length work.old }
    requires n_bound { n ≤ 512 }
    requires sequenced { Sequenced (netlist_in n work.old).bits }
    ensures { MergesAll n work.old work.new }
{
    let count = cell_order::iter_cells_topo(work, n);
    design::queue::unchanged(work, n);
    merge_cells(work, n, count);
}

// `merge` up to `compact`: replaces the nets of equal cells, and says whether an operand was changed.
pub fn merge(work: &mut [u32], n: u32) -> bool
    requires in_bounds { 16384 ≤ length work.old }
    requires n_bound { n ≤ 512 }
    requires sequenced { Sequenced (netlist_in n work.old).bits }
    ensures { MergesNetlist n work.old work.new result }
{
    merge_all(work, n);
    design::queue::apply(work, n)
}
