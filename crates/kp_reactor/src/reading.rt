// A read that does not wait.
ghost use Rattle.std.specs.Prelude.{◌≡◌, ◌<◌, length, IfOk, IfErr, false};
ghost use Rattle.std.specs.IoError.{error_kind};
ghost use Rattle.kp_io.specs.Streams.{TookWithin};
ghost use Rattle.kp_reactor.specs.Moves.{ReadsNow, is_later_kind};

use kp_io::Took;
use std::io::{Error, ErrorKind, Read};

// Whether an error says that the call would have waited, or was cut off before it did anything.
pub(crate) fn is_later(error: &Error) -> bool
    ensures { result ≡ is_later_kind (error_kind error.now) }
{
    matches!(error.kind(), ErrorKind::WouldBlock | ErrorKind::Interrupted)
}

/// Moves the next bytes of a reader that never waits to the front of `into`, or answers that nothing has come yet (the reader
/// would have waited, or was interrupted) or that nothing more will come.
///
/// The error is the reader's own. It is none of the two that say that nothing has come yet.
pub fn read_now<T: Read>(reader: &mut T, into: &mut [u8]) -> Result<Took, Error>
    requires { 0 < length into.old }
    ensures bound { IfOk result (λ took. TookWithin took (length into.new)) }
    ensures bytes { ReadsNow (T.remaining reader.old) (T.remaining reader.new) result into.new }
    ensures own { IfErr result (λ e. is_later_kind (error_kind e) ≡ false) }
{
    match reader.read(into) {
        Ok(0) => Ok(Took::End),
        Ok(count) => Ok(Took::Bytes(count)),
        Err(error) => {
            if is_later(&error) {
                Ok(Took::Later)
            } else {
                Err(error)
            }
        }
    }
}
