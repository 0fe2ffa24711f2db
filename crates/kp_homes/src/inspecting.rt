//! What a home holds, told without a change.

ghost use Rattle.std.specs.Prelude.{ℕ, ◌≡◌, ◌≤◌, IfOk, IfSome, OnOk, IsErrOf};
ghost use Rattle.kp_io.specs.Faults.{Rose};
ghost use Rattle.kp_io.specs.Homes.{home_faults};
ghost use Rattle.kp_homes.specs.declared.fail.HomeFail.TheVariants as home_fail;
ghost use Rattle.kp_homes.specs.Stands.{Bytes4};
ghost use Rattle.kp_homes.specs.Opening.{Holds, IsWithin};
ghost use Rattle.kp_homes.specs.Reading.{IsUntouched, found_of};
ghost use Rattle.kp_homes.specs.Homes.{IsKept, IsInRange};
ghost use Rattle.kp_homes.specs.Inspects.{Inspects};

use crate::fail::HomeFail;
use crate::kept::Kept0;
use crate::reading::{Live, look};
use kp_io::{Disk, Four};
use std::alloc::Global;

/// What the live slot of a home holds.
#[derive(Drop)]
pub struct LiveSlot {
    /// Whether it is the second one.
    pub second: bool,
    /// The generation that the head of its journal says.
    pub generation: u64,
    /// What its records leave behind its image. The number is that of the last start.
    pub kept: Kept0,
}

// What was read of a slot, without its journal.
fn live_slot(live: Live) -> LiveSlot
    ensures second { result.second ≡ live.second }
    ensures generation { result.generation ≡ live.journal.head.generation }
    ensures kept { IsKept result.kept (found_of live) }
    ensures range { IsInRange result.kept }
{
    let generation = live.journal.generation();
    let kept = Kept0 {
        term: live.replay.term(),
        vote: live.replay.vote(),
        boot: live.replay.boot(),
        image: live.image,
        rest: live.replay.into_entries(),
    };
    drop(live.journal);
    LiveSlot {
        second: live.second,
        generation,
        kept,
    }
}

/// What the live slot of this node's home holds; None exactly where the home is blank. No disk is synced, and none is
/// written.
///
/// `Damaged` comes exactly where opening would refuse the home so; `DiskFault` only where the home's count of faults rose;
/// `Full` never.
pub fn inspect<H: Disk>(
    alloc: Global,
    disks: &mut Four<H>,
    node: u8,
) -> Result<Option<LiveSlot>, HomeFail>
    ensures found { (b : Bytes4) → Holds H.held disks.old b → Inspects node b result }
    ensures room { IfOk result (λ live. IfSome live (λ s. IsWithin s.kept.image s.kept.rest.items)) }
    ensures range { IfOk result (λ live. IfSome live (λ s. IsInRange s.kept)) }
    ensures fault { IsErrOf result home_fail.DiskFault → Rose (home_faults H.faults disks.old) (home_faults H.faults disks.new) }
    ensures quiet { OnOk result (home_faults H.faults disks.new ≡ home_faults H.faults disks.old) }
    ensures no_full { (slot len : ℕ) → IsErrOf result (home_fail.Full slot len) → ⊥ }
    ensures same { IsUntouched H.held H.past disks.old disks.new }
    ensures moment { disks.old.moments ≤ disks.new.moments }
{
    match look(alloc, disks, node) {
        Ok(None) => Ok(None),
        Ok(Some(live)) => Ok(Some(live_slot(live))),
        Err(fail) => Err(fail),
    }
}
