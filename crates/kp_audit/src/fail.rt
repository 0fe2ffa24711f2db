ghost use Rattle.std.specs.Prelude.{◌≡◌};
ghost use Rattle.kp_audit.specs.Audits.{fail_of};

use kp_homes::HomeFail;

/// Why there is no text of a home. The slots 0 and 1 are the journals, 2 and 3 the images.
#[derive(Clone, Copy)]
pub enum AuditFail {
    /// A disk failed: the home's count of faults rose.
    DiskFault,
    /// The live slot is outside the format. `at` is the place in the slot's disk, in bytes from the start.
    Damaged { slot: u64, at: u64 },
    /// Memory ran out.
    NoMemory,
}

// The refusal of a home as one of its audit. `Full` comes of no call that only reads.
pub(crate) fn fail_of(fail: HomeFail) -> AuditFail
    ensures { result ≡ fail_of fail }
{
    match fail {
        HomeFail::DiskFault => AuditFail::DiskFault,
        HomeFail::Damaged { slot, at } => AuditFail::Damaged { slot, at },
        HomeFail::Full { .. } | HomeFail::NoMemory => AuditFail::NoMemory,
    }
}
