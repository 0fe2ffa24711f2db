//! Why a field could not be read.

ghost use Rattle.std.specs.Prelude.{◌≡◌};
ghost use Rattle.kp_jute.specs.declared.fault.JuteFail.TheVariants.{NoMemory};

use std::alloc::{AllocError, AllocFailed};

/// What is wrong with a field. `at` is the place, in bytes from the start, where the field begins;
/// a buffer and a text begin at their length.
#[derive(Clone, Copy, Debug, PartialEq, Eq)]
pub enum JuteFail {
    /// The bytes end within the field.
    Short { at: usize },
    /// A length or count below -1, or a length of -1 that must be one.
    BadLength { at: usize },
    /// A boolean above 1, text that is not UTF-8, a value that may not stand there, or the first byte
    /// behind the end of a record.
    BadByte { at: usize },
    /// Memory ran out.
    NoMemory,
}

impl From<AllocError> for JuteFail {
    ghost from_gives = { λ _ e. e ≡ NoMemory };

    fn from(_e: AllocError) -> JuteFail {
        JuteFail::NoMemory
    }
}

impl<T: Drop> From<AllocFailed<T>> for JuteFail {
    ghost from_gives = { λ _ e. e ≡ NoMemory };

    fn from(_e: AllocFailed<T>) -> JuteFail {
        JuteFail::NoMemory
    }
}
