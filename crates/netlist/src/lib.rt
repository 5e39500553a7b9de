// Which cells have effects, which are sources or outputs; and a netlist in the words of the work slice: its records, read and written
// slot by slot.
#![tactic(auto)]

ghost use Rattle.std.specs.Prelude.{◌≡◌, ◌*◌, ◌/◌, ◌%◌, ◌≤◌, ◌<◌, length, get_or};
ghost use Rattle.cell.specs.Records.{cell_of, records_of};
ghost use Rattle.netlist.specs.Shape.{is_source, is_output, has_effects};
ghost use Rattle.netlist.specs.inner.Areas.{word_record, store_words, records_in, Within, visited_at};

use cell::{Cell, Record};
use value::Slot;

pub mod area;
pub mod fields;

// `Cell::has_effects`: inputs and outputs, of the kinds that a ticket has.
#[tactic(auto, unfolding(crate::specs::Shape::has_effects))]
pub fn has_effects(c: Cell) -> bool
    ensures { result ≡ has_effects c }
{
    matches!(c, Cell::Input(_) | Cell::Output(_, _))
}

// The record of a slot.
#[tactic(auto, using(crate::proofs::Heads::head_bytes), unfolding(crate::specs::inner::Areas::word_record))]
pub fn record_in(work: &[u32], s: Slot) -> Record
    ensures { result ≡ word_record work.now s.0 }
{
    let i = (s.0 as usize) * 4;
    let [kind, flags, bit0, bit1] = basics::get_or(work, i, 0).to_le_bytes();
    Record {
        kind,
        flags,
        bit: u16::from_le_bytes([bit0, bit1]),
        a: basics::get_or(work, i + 1, 0),
        b: basics::get_or(work, i + 2, 0),
        c: basics::get_or(work, i + 3, 0),
    }
}

// The cell of a slot, cut to that bit.
pub fn cell_in(work: &[u32], s: Slot) -> Cell
    ensures { result ≡ cell_of (word_record work.now s.0) }
{
    Cell::from(record_in(work, s))
}

// Whether the cell of a slot is a source.
pub fn is_source(work: &[u32], s: Slot) -> bool
    ensures { result ≡ is_source (cell_of (word_record work.now s.0)) }
{
    kinds::is_source(record_in(work, s).kind)
}

pub fn is_output(work: &[u32], s: Slot) -> bool
    ensures { result ≡ is_output (cell_of (word_record work.now s.0)) }
{
    kinds::is_output(record_in(work, s).kind)
}

// Writes a record into a slot.
#[tactic(auto, using(crate::proofs::Heads::head_bytes), unfolding(crate::specs::inner::Areas::store_words))]
pub fn put_record(work: &mut [u32], s: Slot, r: Record)
    ensures { work.new ≡ store_words work.old s.0 r }
{
    let i = (s.0 as usize) * 4;
    let [bit0, bit1] = r.bit.to_le_bytes();
    let head = u32::from_le_bytes([r.kind, r.flags, bit0, bit1]);
    basics::put(work, i, head);
    basics::put(work, i + 1, r.a);
    basics::put(work, i + 2, r.b);
    basics::put(work, i + 3, r.c);
}

// Copies the records of a ticket into the slots, and gives their number.
pub fn load(work: &mut [u32], ticket: &[u8]) -> u32
    requires in_bounds { 16384 ≤ length work.old }
    requires ticket_bound { length ticket.now / 16 ≤ 512 }
    ensures value { result ≡ length ticket.now / 16 }
    ensures work_after { records_in result work.new ≡ records_of ticket.now }
    ensures within { Within 0 visited_at work.old work.new }
{
    let n = cell::records(ticket) as u32;
    for s in 0..n {
        put_record(work, Slot(s), cell::record_at(ticket, Slot(s)));
    }
    n
}
