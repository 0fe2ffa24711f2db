//! What a home's refusal means for its node.

ghost use Rattle.std.specs.Prelude.{◌≡◌};
ghost use Rattle.kp_kept.specs.Answers.{IsOfKeeping, death_by, fail_by};

use kp_event::{KeptFail, Why};
use kp_homes::HomeFail;

/// Why the node takes nothing any more, where this is the count of its home's faults by now.
pub(crate) fn death_by(fail: HomeFail, faults: u128) -> Option<Why>
    requires { IsOfKeeping fail }
    ensures { result ≡ death_by fail faults }
{
    match fail {
        HomeFail::DiskFault => Some(Why::Disk { count: faults }),
        HomeFail::Full { slot, len } => Some(Why::Full {
            slot: slot as u8,
            len,
        }),
        HomeFail::Damaged { .. } | HomeFail::NoMemory => None,
    }
}

/// What the node answers.
pub(crate) fn fail_by(fail: HomeFail) -> KeptFail
    requires { IsOfKeeping fail }
    ensures { result ≡ fail_by fail }
{
    match fail {
        HomeFail::DiskFault => KeptFail::DiskFault,
        HomeFail::Full { slot, len } => KeptFail::Full {
            slot: slot as u8,
            len,
        },
        HomeFail::Damaged { .. } | HomeFail::NoMemory => KeptFail::NoMemory,
    }
}
