// What all crates use: readers and writers of slices that are total, and a choice as a call.
#![tactic(auto)]

ghost use Rattle.std.specs.Prelude.{◌≡◌, cond, get_or, set};

// One of two values, as a call: a goal below it has no branch.
pub fn pick<T: Copy>(b: bool, x: T, y: T) -> T
    ensures { result ≡ cond b x y }
{
    if b { x } else { y }
}

// The element at an index, and d past the end. A test and an index, as `put` has them: by `get` and `copied` it would be no shorter.
pub fn get_or<T: Copy>(s: &[T], i: usize, d: T) -> T
    ensures { result ≡ get_or s.now i d }
{
    if i < s.len() { s[i] } else { d }
}

// Stores an element; past the end nothing is changed.
pub fn put<T: Copy>(s: &mut [T], i: usize, v: T)
    ensures { s.new ≡ set s.old i v }
{
    if i < s.len() {
        s[i] = v;
    }
}
