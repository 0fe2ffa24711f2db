use kp_event::{Said, Standing};

/// What is due.
#[derive(Clone, Copy, Drop)]
pub struct Due {
    /// No leader was heard for too long.
    pub timeout: bool,

    /// A leader is to send what its followers lack, and sessions that were not heard in time are to end.
    pub tick: bool,

    /// The log is to be replaced by an image.
    pub snapshot: bool,
}

/// When a node's worker does what nobody asks for. It may do all of it at any time, so no clause speaks of this.
pub trait Pace {
    /// How many milliseconds the worker may wait, at this time in milliseconds.
    fn pause(&mut self, now: u64) -> u64;

    /// What is due at this time in milliseconds. It counts as done.
    fn due(&mut self, now: u64) -> Due;

    /// A leader was heard at this time in milliseconds.
    fn hears_leader(&mut self, now: u64);

    /// The node said this, and stands so.
    fn sees(&mut self, said: &Said, standing: Standing);
}
