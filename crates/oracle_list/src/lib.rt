// The fixed list of docs/ORACLE.md: its files, and their entries.
#![tactic(auto)]

mod entry;
mod files;

pub use entry::Slices;
pub use files::{Files, ListError, close, is_at_end, next_levels, next_ticket, open, read_entry};
pub use full_read::read_full;
