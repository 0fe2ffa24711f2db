//! Where a connection stands.

ghost use Rattle.std.specs.Prelude.{◌≡◌};
ghost use Rattle.kp_conn.specs.Connection.{numbered, is_over as ends, is_lost as gives_up};
ghost use Rattle.kp_conn.specs.Queue.{SeqFits};

use crate::waiting::Mark;

/// Where a connection stands.
#[derive(Clone, Copy)]
pub enum Phase {
    /// No whole frame came yet.
    Fresh,
    /// Its connect request was read and isn't answered; whether the request had `readOnly`.
    Connecting { read_only: bool },
    /// It serves a session in an epoch; `next` is the number of its next write.
    Live { session: u64, epoch: u64, next: u64 },
    /// Nothing more is taken from it; whether it was given up for want of memory.
    Closing { lost: bool },
}

impl Phase {
    /// Whether nothing more is taken.
    pub fn is_over(self) -> bool
        ensures { result ≡ ends self }
    {
        matches!(self, Phase::Closing { .. })
    }

    /// Whether the connection was given up for want of memory.
    pub fn is_lost(self) -> bool
        ensures { result ≡ gives_up self }
    {
        matches!(self, Phase::Closing { lost: true })
    }

    // The phase behind a request with this mark.
    pub(crate) fn behind(self, mark: &Option<Mark>) -> Phase
        requires { SeqFits mark.now }
        ensures { result ≡ numbered self mark.now }
    {
        match (self, mark) {
            (Phase::Live { session, epoch, .. }, Some(mark)) => Phase::Live {
                session,
                epoch,
                next: mark.seq + 1,
            },
            _ => self,
        }
    }
}
