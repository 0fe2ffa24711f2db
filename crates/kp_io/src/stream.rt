ghost use Rattle.std.specs.Prelude.{ℕ, Bool, List, Option, ◌≡◌, ◌<◌, length, IfOk};
ghost use Rattle.kp_io.specs.Faults.{HasCause};
ghost use Rattle.kp_io.specs.Streams.{Piece, TellsTook, TookWithin, ended_after};

use crate::Failed;

/// What a stream answers.
#[derive(Clone, Copy, Drop)]
pub enum Took {
    /// So many bytes came, at least one.
    Bytes(usize),

    /// Nothing more will come.
    End,

    /// Nothing has come yet.
    Later,
}

/// Bytes that come in, and moments at which none has come yet.
pub trait Stream {
    /// Its answers so far, in order, with the bytes that they gave, or None for a stream that does not tell.
    ghost told: { Self → Option (List Piece) };

    /// Whether it has answered `End`.
    ghost ended: { Self → Bool };

    /// How many calls have failed. It never falls, and stands still at the end of a `u64`.
    ghost faults: { Self → ℕ };

    /// Moves the next bytes to the front of `into` and answers how many they are, or answers that nothing more will come, or
    /// nothing yet.
    ///
    /// `Failed` gives no byte and tells of no answer, and comes exactly where the call raises the count of faults.
    fn take(&mut self, into: &mut [u8]) -> Result<Took, Failed>
        requires { 0 < length into.old }
        ensures bound { IfOk result (λ took. TookWithin took (length into.new)) }
        ensures told { TellsTook (told self.old) (told self.new) result into.new }
        ensures ended { ended self.new ≡ ended_after result (ended self.old) }
        ensures cause { HasCause (faults self.old) (faults self.new) result };
}
