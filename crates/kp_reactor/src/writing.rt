// A write that does not wait.
ghost use Rattle.std.specs.Prelude.{◌≡◌, IfErr, false};
ghost use Rattle.std.specs.Io.{WritesAtMost};
ghost use Rattle.std.specs.Io.KnownBytes.{WriteAppends};
ghost use Rattle.std.specs.IoError.{error_kind};
ghost use Rattle.kp_reactor.specs.Moves.{is_later_kind};

use crate::reading::is_later;
use std::io::{Error, Write};

/// Puts the first n bytes of `bytes` behind what a writer that never waits holds, and answers n, which is 0 where it can take none
/// now.
///
/// The error is the writer's own, and puts no byte. It is none of the two that say that it can take none now.
pub fn write_now<T: Write>(writer: &mut T, bytes: &[u8]) -> Result<usize, Error>
    ensures bound { WritesAtMost result bytes.now }
    ensures bytes { WriteAppends (T.contents writer.old) (T.contents writer.new) result bytes.now }
    ensures own { IfErr result (λ e. is_later_kind (error_kind e) ≡ false) }
{
    match writer.write(bytes) {
        Ok(count) => Ok(count),
        Err(error) => { if is_later(&error) { Ok(0) } else { Err(error) } }
    }
}
