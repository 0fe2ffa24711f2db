//! A map under layers of writes: the layers are sealed one by one, the first is made part of the
//! map or the last is taken away, and neither takes memory.
#![tactic(auto)]

mod cells;
mod grouping;
mod history;
mod index;
mod laws;
mod layers;

pub use grouping::{Grouping, Ungrouped};
pub use laws::{keys_come_with_their_writes, keys_go_with_their_writes};
pub use layers::{GroupedLayers, Layers};

/// No memory was found: std's own error of an allocation.
pub type NoMemory = std::alloc::AllocError;
