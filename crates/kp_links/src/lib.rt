//! A link: a queue of at most 1,024 messages from many threads to one.
//!
//! What is taken of a link is a beginning of what was sent on it, in order, each message once. A thread calls a link with a
//! seat of its own, which stands for what the thread knows of it.
#![tactic(auto)]

mod link;
mod view;

pub use link::{Full, LinkSeat, Links};
pub use view::{LinkRule, LinkView};

/// No memory was found: std's own error of an allocation.
pub type NoMemory = std::alloc::AllocError;
