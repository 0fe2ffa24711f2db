//! When a session was heard.
ghost use Rattle.std.specs.Prelude.{◌≡◌};
ghost use Rattle.kp_expiry.specs.Deadline.{deadline};

/// When a session was last heard, and how long it may then be silent, in milliseconds.
#[derive(Clone, Copy)]
pub struct Heard {
    /// The time when it was last heard.
    pub heard: u64,
    /// How long it may be silent.
    pub timeout: u32,
}

// Deadlines are whole periods of so many milliseconds.
const PERIOD: u128 = 500;

impl Heard {
    /// The first time, in milliseconds, at which the session has expired: that of its last word and
    /// its timeout, rounded up to a multiple of 500. It may be above each `u64`.
    pub fn deadline(&self) -> u128
        ensures { result ≡ deadline self.now }
    {
        let silent = self.heard as u128 + self.timeout as u128;
        (silent + (PERIOD - 1)) / PERIOD * PERIOD
    }
}
