//! The syncs that an opening begins with.

ghost use Rattle.std.specs.Prelude.{ℕ, List, ◌≡◌, ◌<◌, ◌≤◌, OnOk, IsErr};
ghost use Rattle.kp_io.specs.Crash.{HasRoom};
ghost use Rattle.kp_io.specs.Faults.{HasCause, Rose};
ghost use Rattle.kp_io.specs.Homes.{home_faults};
ghost use Rattle.kp_homes.specs.Stands.{Bytes4, HomeLeft, LeftIf, IsRest, IsAtRest};
ghost use Rattle.kp_homes.specs.Opening.{IsTold, AreTold, IsHeld, IsSound, AreSound, LeftNow, LeftNowIf};

use kp_io::{Disk, Failed, Four};

// Waits until what one disk holds outlasts a crash. A crash leaves what one before the call could leave.
fn settle<D: Disk>(disk: &mut D, moments: &mut u64) -> Result<(), Failed>
    ensures held { OnOk result (D.held disk.new ≡ D.held disk.old) }
    ensures left { (m n : ℕ) (xs c : List ℕ) → IsTold m xs (D.held disk.old) (D.past disk.old) → m ≤ moments.old → HasRoom moments.new → m < n → LeftIf (D.past disk.new) n c → LeftNowIf (D.past disk.old) c }
    ensures rest { (m : ℕ) (xs : List ℕ) → IsTold m xs (D.held disk.old) (D.past disk.old) → m ≤ moments.old → HasRoom moments.new → OnOk result (IsRest moments.new xs (D.held disk.new) (D.past disk.new)) }
    ensures sound { (m : ℕ) (xs : List ℕ) → IsTold m xs (D.held disk.old) (D.past disk.old) → m ≤ moments.old → IsSound moments.new (D.held disk.new) (D.past disk.new) }
    ensures moment { moments.old ≤ moments.new }
    ensures cause { HasCause (D.faults disk.old) (D.faults disk.new) result }
{
    disk.sync(moments)
}

/// Waits until what the disks of a home hold outlasts a crash. A crash leaves what one before the call could leave.
pub(crate) fn settle_all<H: Disk>(disks: &mut Four<H>) -> Result<(), Failed>
    ensures left { (b : Bytes4) → AreTold H.held H.past disks.old b → HasRoom disks.new.moments → (n : ℕ) (c : Bytes4) → disks.old.moments < n → HomeLeft H.past disks.new n c → LeftNow H.past disks.old c }
    ensures rest { (b : Bytes4) → AreTold H.held H.past disks.old b → HasRoom disks.new.moments → OnOk result (IsAtRest H.held H.past disks.new b) }
    ensures sound { (b : Bytes4) → AreTold H.held H.past disks.old b → LeftNow H.past disks.old b → AreSound H.held H.past disks.new }
    ensures holds { OnOk result (IsHeld H.held disks.old disks.new) }
    ensures fault { IsErr result → Rose (home_faults H.faults disks.old) (home_faults H.faults disks.new) }
    ensures quiet { OnOk result (home_faults H.faults disks.new ≡ home_faults H.faults disks.old) }
    ensures moment { disks.old.moments ≤ disks.new.moments }
{
    settle(&mut disks.j0, &mut disks.moments)?;
    settle(&mut disks.j1, &mut disks.moments)?;
    settle(&mut disks.i0, &mut disks.moments)?;
    settle(&mut disks.i1, &mut disks.moments)
}
