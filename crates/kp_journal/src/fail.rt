//! Why a journal was not read or not added to.

ghost use Rattle.std.specs.Prelude.{◌≡◌};
ghost use Rattle.kp_journal.specs.declared.fail.JournalFail.TheVariants as fail;
ghost use Rattle.kp_journal.specs.Journals.{fail_of};

use kp_io::Failed;
use kp_jute::JuteFail;
use kp_model::NoMemory;

/// Why there is no journal, or no batch was added to one.
#[derive(Clone, Copy, PartialEq, Eq)]
pub enum JournalFail {
    /// The disk failed: its count of faults rose.
    DiskFault,
    /// An open gate stands before bytes that are outside the format. `at` is the place, in bytes from the start, where the
    /// first field begins that is cut off or out of its range; a batch begins at its length.
    Damaged { at: u64 },
    /// The journal would be `len` bytes long, which is more than 2^40.
    Full { len: u64 },
    /// The head is not open.
    Closed,
    /// Memory ran out.
    NoMemory,
}

impl From<Failed> for JournalFail {
    ghost from_gives = { λ _ e. e ≡ fail.DiskFault };

    fn from(_failed: Failed) -> JournalFail {
        JournalFail::DiskFault
    }
}

impl From<NoMemory> for JournalFail {
    ghost from_gives = { λ _ e. e ≡ fail.NoMemory };

    fn from(_refused: NoMemory) -> JournalFail {
        JournalFail::NoMemory
    }
}

impl From<JuteFail> for JournalFail {
    ghost from_gives = { λ f e. e ≡ fail_of f };

    fn from(fail: JuteFail) -> JournalFail {
        match fail {
            JuteFail::Short { at } | JuteFail::BadLength { at } | JuteFail::BadByte { at } =>
                JournalFail::Damaged { at: at as u64 },
            JuteFail::NoMemory => JournalFail::NoMemory,
        }
    }
}
