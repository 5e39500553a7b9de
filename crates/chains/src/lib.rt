// Items in first-in-first-out lists by class (requests 2026-02 and 2026-08), in three areas of the work slice; what an item is, and its class, the
// caller says. A class has a word for its first item and one for its last, an item one for the next of its class: each holds one more than the
// item's number, and 0 is none. Before use the words of the first items are cleared, and no other: that of a last item is looked at only where
// there is a first. No map of vectors: the library has no heap (`netlist/src/area.rt`).
#![tactic(auto)]

ghost use Rattle.std.specs.Prelude.{◌≡◌, ℕ, ◌+◌, ◌≤◌, ◌<◌, ◌^◌, ltb, length, get_or};
ghost use Rattle.netlist.specs.inner.Areas.{Within};
ghost use Rattle.chains.specs.Chains.{first_in, next_in, list_in, appended, Searchable, Finds};

use netlist::area::Area;
use value::Slot;

// Where the lists stand: the first items, the last ones, the next ones.
#[derive(Clone, Copy)]
pub struct Chains {
    pub heads: Area,
    pub tails: Area,
    pub links: Area,
    pub classes: u32,
}

impl Chains {
    // Empties all lists.
    pub fn clear(self, work: &mut [u32])
        requires { self.heads.0 + self.classes ≤ length work.old }
        ensures blank { (b : ℕ) → b < self.classes → get_or work.new (self.heads.0 + b) 0 ≡ 0 }
        ensures within { Within self.heads.0 (self.heads.0 + self.classes) work.old work.new }
    {
        self.heads.clear(work, self.classes);
    }

    // The first item of a class.
    pub fn first(self, work: &[u32], b: u32) -> Option<u32>
        ensures { result ≡ first_in self work.now b }
    {
        self.heads.get(work, Slot(b)).checked_sub(1)
    }

    // The next item of an item's class.
    pub fn next(self, work: &[u32], i: u32) -> Option<u32>
        ensures { result ≡ next_in self work.now i }
    {
        self.links.get(work, Slot(i)).checked_sub(1)
    }

    // Whether the list of a class has more than n items.
    pub fn is_longer(self, work: &[u32], b: u32, n: u32) -> bool
        ensures { result ≡ ltb n (length (list_in self work.now (n + 1) b)) }
    {
        let mut at = self.first(work, b);
        'hops: for _ in 0..n {
            match at {
                None => return false,
                Some(i) => at = self.next(work, i),
            }
        }
        at.is_some()
    }

    // Appends an item to the list of a class.
    #[tactic(auto, unfolding(crate::specs::Chains::appended))]
    pub fn append(self, work: &mut [u32], i: u32, b: u32)
        requires { i + 1 < 2 ^ 32 }
        ensures { work.new ≡ appended self work.old i b }
    {
        let head = self.heads.get(work, Slot(b));
        let tail = self.tails.get(work, Slot(b));
        self.links.put(work, Slot(i), 0);
        if head == 0 {
            self.heads.put(work, Slot(b), i + 1);
        } else {
            // Of a list that is not empty the word of the last item is not 0.
            self.links.put(work, Slot(tail.saturating_sub(1)), i + 1);
        }
        self.tails.put(work, Slot(b), i + 1);
    }

    // The first item of a class that passes a test.
    pub fn find<F: Fn(u32) -> bool>(self, work: &[u32], b: u32, test: F) -> Option<u32>
        requires b_lt_classes { b < self.classes }
        requires searchable { Searchable (F.pre test) self work.now }
        ensures { Finds (F.post test) self work.now b result }
    {
        let mut at = self.first(work, b);
        while let Some(i) = at {
            if test(i) {
                return Some(i);
            }
            at = self.next(work, i);
        }
        None
    }
}
