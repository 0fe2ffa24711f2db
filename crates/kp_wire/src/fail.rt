//! Why a frame could not be read.

ghost use Rattle.std.specs.Prelude.{◌≡◌};
ghost use Rattle.kp_wire.specs.Common.{refused_as};

use kp_jute::JuteFail;

/// Why a frame could not be read.
#[derive(Clone, Copy, Debug, PartialEq, Eq)]
pub enum WireFail {
    /// The frame is outside the grammar: `at` is the place, in bytes from the frame's start, of the first field
    /// that can't be read, or of the first byte that is left over.
    BadRecord { at: u64 },
    /// Memory ran out.
    NoMemory,
}

impl From<JuteFail> for WireFail {
    ghost use Rattle.std.specs.Prelude.{◌≡◌};
    ghost use Rattle.kp_wire.specs.Common.{wire_fail};

    ghost from_gives = { λ e r. r ≡ wire_fail e };

    fn from(fail: JuteFail) -> WireFail {
        match fail {
            JuteFail::NoMemory => WireFail::NoMemory,
            JuteFail::Short { at } | JuteFail::BadLength { at } | JuteFail::BadByte { at } => {
                WireFail::BadRecord { at: at as u64 }
            }
        }
    }
}

/// The same answer, with a refusal as one of the frame.
pub(crate) fn told<T>(answer: Result<T, JuteFail>) -> Result<T, WireFail>
    ensures { result ≡ refused_as answer }
{
    match answer {
        Ok(value) => Ok(value),
        Err(fail) => Err(WireFail::from(fail)),
    }
}
