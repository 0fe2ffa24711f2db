ghost use Rattle.std.specs.Prelude.{◌≡◌};
ghost use Rattle.kp_homes.specs.Stands.{fail_in};
ghost use Rattle.kp_homes.specs.declared.fail.HomeFail.TheVariants as home_fail;

use kp_io::Failed;
use kp_journal::JournalFail;
use kp_model::NoMemory;
use std::alloc::AllocError;

/// Why there is no home, or nothing was added to one. The slots 0 and 1 are the journals, 2 and 3
/// the images.
#[derive(Clone, Copy, Debug, PartialEq, Eq)]
pub enum HomeFail {
    /// A disk failed: the home's count of faults rose.
    DiskFault,
    /// The live slot is outside the format. `at` is the place in the slot's disk, in bytes from
    /// the start.
    Damaged { slot: u64, at: u64 },
    /// The disk of this slot would hold `len` bytes, which is more than 2^40.
    Full { slot: u64, len: u64 },
    /// Memory ran out.
    NoMemory,
}

impl From<Failed> for HomeFail {
    ghost from_gives = { λ _ e. e ≡ home_fail.DiskFault };

    fn from(_failed: Failed) -> HomeFail {
        HomeFail::DiskFault
    }
}

impl From<NoMemory> for HomeFail {
    ghost from_gives = { λ _ e. e ≡ home_fail.NoMemory };

    fn from(_refused: NoMemory) -> HomeFail {
        HomeFail::NoMemory
    }
}

impl From<AllocError> for HomeFail {
    ghost from_gives = { λ _ e. e ≡ home_fail.NoMemory };

    fn from(_refused: AllocError) -> HomeFail {
        HomeFail::NoMemory
    }
}

/// The refusal of a journal as one of its slot.
pub(crate) fn fail_in(slot: u64, fail: JournalFail) -> HomeFail
    ensures { result ≡ fail_in slot fail }
{
    match fail {
        JournalFail::DiskFault => HomeFail::DiskFault,
        JournalFail::Damaged { at } => HomeFail::Damaged { slot, at },
        JournalFail::Full { len } => HomeFail::Full { slot, len },
        JournalFail::Closed => HomeFail::Damaged { slot, at: 0 },
        JournalFail::NoMemory => HomeFail::NoMemory,
    }
}
