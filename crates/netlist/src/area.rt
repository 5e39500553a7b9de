// Where the areas of the work slice begin (`specs/inner/Areas.antt`; docs/MAP.md draws them). The records stand from word 0 on, four words a slot.
// The words and the number of slots stay two parameters, with their bounds as clauses: a struct that held the `&mut` would owe in every clause
// that it still holds the same reference. An array `&mut [u32; 16384]` is a narrower parameter: public functions would ask more of their callers, and
// the calls, which take a slice, would each have to borrow its first 16,384 words as one. Areas, and slots as numbers, stay in place of vectors, maps
// and boxes: the library has no heap, and its memory is the one slice that the caller lends. So what an area holds so far (`count`, `k`) is a number
// beside it. Where the words are only read and a few methods share them, words and number are a struct (`levels`, `compact`, `cell_order`); public
// look-ups take the two, as their definitions do.
ghost use Rattle.std.specs.Prelude.{◌≡◌, ℕ, ◌+◌, ◌≤◌, ◌<◌, length, get_or, set};
ghost use Rattle.netlist.specs.inner.Areas.{words_in, Within};

use value::Slot;

// An area of a word a slot, by the index of its first word. `Slot(i)` also counts the keys and the places of the order: an area is by slots.
#[derive(Clone, Copy)]
pub struct Area(pub u32);

// The marks of the search for loops, where the records stand after it: they are loaded when it has ended.
pub const MARKS: Area = Area(0);

pub const VISITED: Area = Area(4096);

pub const ORDER: Area = Area(5120);

pub const REPLACED: Area = Area(6144);

pub const FIGURES: Area = Area(7168);

// A word a key of the numberer.
pub const MIXES: Area = Area(8192);

// Slots of four words, as for `record_in`: the numberer's keys, and those of a cell that is being merged.
pub const NUMBERER: u32 = 2304;

pub const KEYS: u32 = 3328;

impl Area {
    // The word of a slot; 0 past the end.
    pub fn get(self, work: &[u32], s: Slot) -> u32
        ensures { result ≡ get_or work.now (self.0 + s.0) 0 }
    {
        basics::get_or(work, (self.0 as usize) + (s.0 as usize), 0)
    }

    // The word of one of the first n slots, and d for any other.
    pub fn get_or(self, work: &[u32], n: u32, s: Slot, d: u32) -> u32
        ensures { result ≡ get_or (words_in self.0 n work.now) s.0 d }
    {
        if s.0 < n { self.get(work, s) } else { d }
    }

    // Stores the word of a slot; past the end nothing is changed.
    pub fn put(self, work: &mut [u32], s: Slot, v: u32)
        ensures { work.new ≡ set work.old (self.0 + s.0) v }
    {
        basics::put(work, (self.0 as usize) + (s.0 as usize), v);
    }

    // Sets the words of the first n slots to 0.
    pub fn clear(self, work: &mut [u32], n: u32)
        requires { self.0 + n ≤ length work.old }
        ensures blank { (i : ℕ) → i < n → get_or work.new (self.0 + i) 0 ≡ 0 }
        ensures within { Within self.0 (self.0 + n) work.old work.new }
    {
        let from = self.0 as usize;
        work[from..from + (n as usize)].fill(0);
    }
}
