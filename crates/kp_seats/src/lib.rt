//! The connections of a node: what each holds, by its number, and which one serves a session.
#![tactic(auto)]

mod numbered;
mod order;
mod seats;
mod sessions;
mod walk;

pub use seats::Seats;
pub use sessions::Sessions;
pub use walk::{Change, change_all};

/// No memory was found: std's own error of an allocation.
pub type NoMemory = std::alloc::AllocError;
