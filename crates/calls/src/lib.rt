// What the public calls answer for an accepted ticket. Levels, compacting and rewriting answer a `u32`, the byte count.
#![tactic(auto)]

// Checking.
#[derive(Clone, Copy, Debug, PartialEq, Eq)]
pub struct Counts {
    pub records: u32,
    pub gates: u32,
}

// Merging: the byte count, and whether an operand was changed. No Option: the count is there either way.
#[derive(Clone, Copy, Debug, PartialEq, Eq)]
pub struct Merged {
    pub bytes: u32,
    pub changed: bool,
}
