//! What is said of a connection.

ghost use Rattle.std.specs.Prelude.{◌≡◌};
ghost use Rattle.kp_step.specs.Step.{fed_word as word_of};

use kp_conn::FedEnd;
use kp_event::{FedWord, OutPiece};

/// What is said of bytes whose reading ended so.
pub fn fed_word(end: FedEnd) -> FedWord
    ensures { result ≡ word_of end }
{
    match end {
        FedEnd::Bad { at } => FedWord::Bad { at },
        FedEnd::Ok | FedEnd::Word(_) => FedWord::Taken,
    }
}

/// What was ready for a connection.
pub fn piece(ready: kp_conn::OutPiece) -> OutPiece
    ensures { result ≡ record { bytes = ready.bytes; over = ready.over; lost = ready.lost } }
{
    let kp_conn::OutPiece { bytes, over, lost } = ready;
    OutPiece { bytes, over, lost }
}
