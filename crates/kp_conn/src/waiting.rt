//! What waits for its answer.

use kp_wire::{Request, WireReply};

/// A write that was handed in: its number in its session's epoch, which begins at 1, and the term at that time.
#[derive(Clone, Copy)]
pub struct Mark {
    pub seq: u64,
    pub term: u64,
}

/// A request that waits for its answer.
#[derive(Drop)]
pub struct Waiting {
    pub request: Request,
    /// None for a request that goes into no log, and for a write that was refused at once.
    pub mark: Option<Mark>,
    /// What a write will be answered, once its entry was applied.
    pub reply: Option<WireReply>,
}
