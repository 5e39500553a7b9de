// Litter: what lent slices hold at entry. Every word of it could be a slot, a net or a mark, none is
// 0, neighbours differ, and so does what a place holds from seed to seed.
#![tactic(auto)]

ghost use Rattle.std.specs.Prelude.{◌≡◌, ◌||◌, ℕ, ◌+◌, ◌<◌, ◌%◌, length, nat_lt, slice_get};
ghost use Rattle.std.specs.List.{list_all, enumerate_from};
ghost use Rattle.litter.specs.Litter.{word_at, is_left_at};

// Words are 1 to RING.
const RING: u32 = 1031;

// How many words at its start a call clears of a work slice that is long enough.
const CLEARED: usize = 16384;

// What a place of litter holds, made of a word.
pub trait Scrap: Copy + PartialEq {
    ghost scrap: { ℕ → Self };

    fn of(word: u32) -> Self
        ensures { result ≡ scrap word };
}

impl Scrap for u32 {
    ghost scrap = { λ word. word };

    fn of(word: u32) -> u32 {
        word
    }
}

// The low byte; 0 to 255 all come.
impl Scrap for u8 {
    ghost scrap = { λ word. word % 256 };

    fn of(word: u32) -> u8 {
        (word % 256) as u8
    }
}

pub fn first(seed: u32) -> u32
    ensures { result ≡ word_at seed 0 }
{
    seed % RING + 1
}

// The word behind one, round the ring. Loops carry it from place to place: with a remainder for each
// place a replay takes twice as long.
fn next(word: u32) -> u32
    ensures { (seed place : ℕ) → word ≡ word_at seed place → result ≡ word_at seed (place + 1) }
{
    if word < RING { word + 1 } else { 1 }
}

pub fn spill<T: Scrap>(space: &mut [T], seed: u32)
    ensures { (k : ℕ) → k < length space.old → slice_get space.new k ≡ Some (T.scrap (word_at seed k)) }
{
    let mut word = first(seed);
    for (k, place) in space.iter_mut().enumerate() {
        *place = T::of(word);
        word = next(word);
    }
}

// Whether the places behind the first ones are as they were spilled. Not inlined: LLVM would have the
// loop set the caller's answers anew at each place.
#[inline(never)]
pub fn is_kept_behind<T: Scrap>(space: &[T], written: usize, seed: u32) -> bool
    ensures { result ≡ list_all (λ place. nat_lt place.0 written || T.eq place.1 (T.scrap (word_at seed place.0))) (enumerate_from 0 space.now) }
{
    let mut word = first(seed);
    for (k, place) in space.iter().enumerate() {
        if written <= k && *place != T::of(word) {
            return false;
        }
        word = next(word);
    }
    true
}

// Whether the work slice, the first words of a space that was spilled with the same seed, is left as
// a call must leave it, and the words behind it are kept.
pub fn is_left(space: &[u32], lent: usize, seed: u32) -> bool
    ensures { result ≡ list_all (is_left_at lent seed) (enumerate_from 0 space.now) }
{
    let cleared = if lent < CLEARED { 0 } else { CLEARED };
    let mut word = first(seed);
    for (k, x) in space.iter().enumerate() {
        let left = if k < cleared { 0 } else { word };
        if *x != left {
            return false;
        }
        word = next(word);
    }
    true
}
