//! When sessions expire: each session's deadline, and those whose deadline has come.
#![tactic(auto)]

mod expiry;
mod heard;
mod listing;
mod tree;

pub use expiry::Expiry;
pub use heard::Heard;

/// No memory was found: std's own error of an allocation.
pub type NoMemory = std::alloc::AllocError;
