//! Journals: records behind gates, on a disk that may crash.
#![tactic(auto)]

mod disk;
mod fail;
mod found;
mod gate;
mod head;
mod journal;
mod promises;

pub use disk::{open_generation, read_front};
pub use fail::JournalFail;
pub use gate::{append, open_gate, stage};
pub use head::{Head, write_head};
pub use journal::Journal;
pub use promises::new_journal_stands;
