//! One lock round a value that takes events, and the word that tells threads to stop.
//!
//! The events of all threads make one history, and the contract of each call says what it adds to it and how much of it
//! the caller knows. A thread calls with a seat of its own, which has no bytes: it stands for what the thread knows.
#![tactic(auto)]

mod rule;
mod stop;
mod storied;
mod turn;
mod view;

pub use rule::OneHistory;
pub use stop::{StopRule, StopSeat, StopView, StopWord};
pub use storied::Storied;
pub use turn::{Refused, Turn, TurnOf, TurnSeat, Worn};
pub use view::{TurnSlot, TurnView};

/// No memory was found: std's own error of an allocation.
pub type NoMemory = std::alloc::AllocError;
