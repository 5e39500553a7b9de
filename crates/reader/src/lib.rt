// The lister's reader: a ticket's bytes and a place in them, an iterator over the records with their slots.
#![tactic(auto)]

ghost use Rattle.std.specs.Prelude.{◌≡◌, ◌+◌, ◌-◌, ◌/◌, ◌<◌, ◌^◌, length};
ghost use Rattle.std.specs.Iterator.{at_most};
ghost use Rattle.cell.specs.Records.{record_at};
ghost use Rattle.reader.specs.Read.{standing, following, Reads};

use cell::Record;
use value::Slot;

// Bytes and a place, and no slice that becomes shorter: each record is told with its slot.
#[derive(Clone, Copy)]
pub struct Reader<'a> {
    pub bytes: &'a [u8],
    // The slot whose record is read next; a slice can have more records than there are slots of a ticket.
    pub at: usize,
}

// The record of this slot.
#[tactic(auto, using(crate::proofs::Reading::record_behind))]
fn record_of(bytes: &[u8], at: usize) -> Record
    requires { at < length bytes.now / 16 }
    ensures { result ≡ record_at bytes.now at }
{
    cell::record_at(&bytes[at * 16..], Slot(0))
}

impl<'a> Reader<'a> {
    // A reader of these bytes, at the first record.
    pub fn open(bytes: &'a [u8]) -> Reader<'a>
        ensures { result ≡ standing bytes.entry 0 }
    {
        Reader { bytes, at: 0 }
    }

    // The reader at the next slot, whether or not there is a record where it stands.
    pub fn next(self) -> Reader<'a>
        requires { self.at + 1 < 2 ^ 64 }
        ensures { result ≡ following self.entry }
    {
        Reader {
            bytes: self.bytes,
            at: self.at + 1,
        }
    }
}

impl<'a> Iterator for Reader<'a> {
    type Item = (usize, Record);

    ghost next_gives = { Reads };

    ghost remaining = { λ r. at_most (length r.bytes.now / 16 - r.at) };

    #[tactic(auto, unfolding(crate::specs::Read::has_record))]
    fn next(&mut self) -> Option<(usize, Record)> {
        let s = self.at;
        if cell::records(self.bytes) <= s {
            return None;
        }
        *self = Reader::next(*self);
        Some((s, record_of(self.bytes, s)))
    }
}
