// The numberer: the map from a cell to the net that holds it, `Numberer` of generic/src/merge.rs and the cache of netlist/src/rewrite.rs.
// Its entries are keys in an area of the work slice, each as a record whose bit is the slot of the cell; how many there are is a number that
// goes beside the area, as the Rust's map has none here. Two areas and no map: the library has no heap, and of the mixes alone several are
// compared at a time.
#![tactic(auto)]

ghost use Rattle.std.specs.Prelude.{◌≡◌, ◌+◌, ◌≤◌, ◌<◌, length, set};
ghost use Rattle.cell.specs.Records.{cell_of};
ghost use Rattle.netlist.specs.inner.Areas.{word_record, store_words, numberer_at, mixes_at};
ghost use Rattle.design.specs.Queue.{eq_record};
ghost use Rattle.numberer.specs.Numberer.{seek};
ghost use Rattle.numberer.specs.inner.Words.{mix_of, numberer_in, IsCell, Entered, MixedAt, Mixed, Counts};

use cell::Record;
use netlist::area;
use value::{Net, Slot};

// A number that equal keys have in common. One comparison of it tells most keys apart.
fn mix(r: Record) -> u32
    ensures { result ≡ mix_of r }
{
    let rest = u32::from(r.flags) % 4 + 4 * (r.c % 16);
    r.a % 2048 + 2048 * (r.b % 2048 + 2048 * (u32::from(r.kind) % 16 + 16 * rest))
}

// How many of the first k entries have the mix x; what stands behind them is counted too, up to a multiple of 16. Since it does not stop at
// the first and has a whole number of rounds, it takes several entries at a time.
fn count_mix(work: &[u32], k: u32, x: u32) -> u32
    requires in_bounds { 16384 ≤ length work.now }
    requires k_bound { k ≤ 1024 }
    ensures { Counts k x work.now result }
{
    let from = area::MIXES.0 as usize;
    let end = (k as usize).next_multiple_of(16);
    // A `for` that adds a number for each: by `filter` and `count`, which prove as well, merge and rewrite take up to twice as long
    // (merge of a chain 70 to 130 µs, rewriting of gates of different pairs 67 to 133).
    let mut count: u32 = 0;
    for m in work[from..from + end].iter() {
        count += u32::from(*m == x);
    }
    count
}

// Whether an entry has a key, whose mix is x. No struct of key and mix: this private function and the next alone share both, and `find`
// and `insert` take words, number and key as the definitions do.
fn same_at(work: &[u32], i: u32, key: Record, x: u32) -> bool
    requires i_bound { i < 1024 }
    requires mixed_at { MixedAt i work.now }
    requires x_value { x ≡ mix_of key }
    ensures { result ≡ eq_record (word_record work.now (numberer_at + i)) key }
{
    if area::MIXES.get(work, Slot(i)) == x {
        return design::queue::record_eq(netlist::record_in(work, Slot(area::NUMBERER + i)), key);
    }
    false
}

// Looks for a key, whose mix is x, from the first entry on.
fn find_first(work: &[u32], k: u32, key: Record, x: u32) -> Option<Net>
    requires k_bound { k ≤ 1024 }
    requires entered { Entered k work.now }
    requires mixed { Mixed k work.now }
    requires cell { IsCell key }
    requires x_value { x ≡ mix_of key }
    ensures { result ≡ seek (numberer_in k work.now) (cell_of key) }
{
    // A `for`: by `find` the entry would be read in a `map` behind it, no shorter.
    for i in 0..k {
        if same_at(work, i, key, x) {
            let r = netlist::record_in(work, Slot(area::NUMBERER + i));
            return Some(Net::from_cell_index(Slot(u32::from(r.bit))));
        }
    }
    None
}

// Looks for a key. A few entries are looked at one by one; of many it is asked first whether any has the mix.
pub fn find(work: &[u32], k: u32, key: Record) -> Option<Net>
    requires in_bounds { 16384 ≤ length work.now }
    requires k_bound { k ≤ 1024 }
    requires entered { Entered k work.now }
    requires mixed { Mixed k work.now }
    requires cell { IsCell key }
    ensures { result ≡ seek (numberer_in k work.now) (cell_of key) }
{
    let x = mix(key);
    if 16 < k && count_mix(work, k, x) == 0 {
        return None;
    }
    find_first(work, k, key, x)
}

// Enters a key behind the first k.
pub fn insert(work: &mut [u32], k: u32, key: Record)
    requires { k < 1024 }
    ensures { work.new ≡ set (store_words work.old (numberer_at + k) key) (mixes_at + k) (mix_of key) }
{
    netlist::put_record(work, Slot(area::NUMBERER + k), key);
    area::MIXES.put(work, Slot(k), mix(key));
}
