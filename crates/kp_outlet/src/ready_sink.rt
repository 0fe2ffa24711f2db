ghost use Rattle.std.specs.Prelude.{ℕ, List, Option};
ghost use Rattle.std.specs.Io.{WritesAtMost};
ghost use Rattle.std.specs.Io.KnownBytes.{WriteAppends};
ghost use Rattle.kp_io.specs.Faults.{HasCause};

use kp_io::Failed;

/// A place for bytes that go out, which never waits: what it can't take at once it leaves.
pub trait ReadySink {
    /// The bytes that it holds, or None for a sink that does not tell.
    ghost held: { Self → Option (List ℕ) };

    /// How many calls have failed. It never falls, and stands still at the end of a `u64`.
    ghost faults: { Self → ℕ };

    /// Puts the first n bytes of `bytes` behind what it holds and answers n, which is 0 where it can take none now.
    ///
    /// `Failed` puts no byte, and comes exactly where the call raises the count of faults.
    fn offer(&mut self, bytes: &[u8]) -> Result<usize, Failed>
        ensures bound { WritesAtMost result bytes.now }
        ensures bytes { WriteAppends (held self.old) (held self.new) result bytes.now }
        ensures cause { HasCause (faults self.old) (faults self.new) result };
}
