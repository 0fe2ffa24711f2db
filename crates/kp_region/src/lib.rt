//! Byte strings under running marks, in one buffer that is used again as strings leave at the front.
#![tactic(auto)]

mod region;
mod window;

pub use region::Region;

/// No memory was found, or a running number would leave its range: std's own error of an allocation.
pub type NoMemory = std::alloc::AllocError;
