ghost use Rattle.std.specs.Prelude.{◌≡◌, ℕ, ◌+◌, ◌^◌, ◌<◌};

/// A value that takes events, one at a time, and answers each.
///
/// Contracts see how many events the value stands for, and a relation that says which steps it may take. It is a relation
/// and no function, since an answer may depend on more than the value, as on a disk that fails.
pub trait Storied {
    /// What the value is told. An event that can't be taken any more is dropped.
    type Event: Drop;

    /// What the value answers to an event.
    type Said: Drop;

    /// The number of events that the value has taken.
    ghost events: { Self → ℕ };

    /// The value before, the event, the answer and the value after make a step that it may take.
    ghost steps: { Self → Self.Event → Self.Said → Self → Type 0 };

    /// Takes one event.
    fn step(&mut self, event: Self::Event) -> Self::Said
        requires { events self.old < 2 ^ 62 }
        ensures step { steps self.old event result self.new }
        ensures count { events self.new ≡ events self.old + 1 };
}
