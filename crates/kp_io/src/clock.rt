ghost use Rattle.std.specs.Prelude.{ℕ, ◌≡◌, ◌≤◌, ◌^◌};

/// The time of day, in milliseconds.
pub trait Clock {
    /// The times that it may answer.
    ghost may: { Self → ℕ → Type 0 };

    /// The time now, at most 2^62.
    fn now(&self) -> u64
        ensures may { may self.now result }
        ensures bound { result ≤ 2 ^ 62 };
}

/// A clock in memory that stands still.
#[derive(Drop)]
pub struct MemoryClock {
    now: u64,
    ghost early: { now ≤ 2 ^ 62 },
}

impl MemoryClock {
    /// A clock that answers this time.
    pub fn new(now: u64) -> MemoryClock
        requires { now ≤ 2 ^ 62 }
        ensures { result.now ≡ now }
    {
        MemoryClock { now }
    }
}

impl Clock for MemoryClock {
    ghost may = { λ clock time. time ≡ clock.now };

    fn now(&self) -> u64 {
        self.now
    }
}
