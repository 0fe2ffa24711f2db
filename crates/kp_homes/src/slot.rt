//! A new slot: a journal and an image.

ghost use Rattle.std.specs.Prelude.{ℕ, List, Some, true, ◌≡◌, ◌+◌, ◌^◌, ◌<◌, ◌≤◌, length, OnOk, IfOk, IfSome, IsErr};
ghost use Rattle.std.specs.Option.{option_map};
ghost use Rattle.kp_io.specs.Crash.{LeavesIf, IsLeft, IsSettled, HasFront, HasRoom};
ghost use Rattle.kp_io.specs.Faults.{HasCause, Rose, one_more};
ghost use Rattle.kp_homes.specs.Slots.{Loses, is_shut, closed_head, filled, LeavesTwoIf, IsOldOrNew, IsDone};

use kp_io::{Disk, Failed};
use kp_journal::{Head, append, open_gate, write_head};

// Whether the journal is not empty and its head is not open.
fn is_shut<D: Disk>(journal: &mut D, moments: &mut u64) -> Result<bool, Failed>
    ensures answer { IfOk result (λ shut. IfSome (D.held journal.old) (λ xs. shut ≡ is_shut xs)) }
    ensures keeps { D.held journal.new ≡ D.held journal.old }
    ensures past { D.past journal.new ≡ D.past journal.old }
    ensures moment { moments.new ≡ one_more moments.old }
    ensures cause { HasCause (D.faults journal.old) (D.faults journal.new) result }
{
    let mut first = [0];
    let count = journal.read(0, &mut first, moments)?;
    if count == 0 {
        return Ok(false);
    }
    Ok(first[0] != 1)
}

/// Closes the head of a journal that is empty or has an open one, and waits until that outlasts a
/// crash. A head that is closed is not written: a crash within the write might leave it open
/// before an unfinished slot. A crash leaves a journal that is not live, if it was not.
pub(crate) fn close_head<D: Disk>(journal: &mut D, moments: &mut u64) -> Result<(), Failed>
    ensures shut { OnOk result (IfSome (D.held journal.new) (λ ys. is_shut ys ≡ true)) }
    ensures held { OnOk result (D.held journal.new ≡ option_map closed_head (D.held journal.old)) }
    ensures told { (xs : List ℕ) → D.held journal.old ≡ Some xs → OnOk result (D.held journal.new ≡ Some (closed_head xs)) }
    ensures settled { (xs : List ℕ) → D.held journal.old ≡ Some xs → IsSettled moments.old xs (D.past journal.old) → HasRoom moments.new
        → OnOk result (IsSettled moments.new (closed_head xs) (D.past journal.new)) }
    ensures crash { (bound : ℕ) (xs : List ℕ) → D.held journal.old ≡ Some xs → IsSettled moments.old xs (D.past journal.old) → HasRoom moments.new → Loses bound xs
        → LeavesIf moments.old moments.new (Loses bound) (D.past journal.old) (D.past journal.new) }
    ensures left { IsLeft (D.past journal.old) (D.held journal.old) → IsLeft (D.past journal.new) (D.held journal.new) }
    ensures moment { moments.old ≤ moments.new }
    ensures cause { HasCause (D.faults journal.old) (D.faults journal.new) result }
{
    let shut = is_shut(journal, moments)?;
    if shut {
        return Ok(());
    }
    journal.write_at(0, &[0], moments)?;
    journal.sync(moments)
}

/// Writes the image over what its disk holds, ends the disk there, and waits until that outlasts
/// a crash.
pub(crate) fn write_image<D: Disk>(
    disk: &mut D,
    image: &[u8],
    moments: &mut u64,
) -> Result<(), Failed>
    requires { length image.now ≤ 2 ^ 40 }
    ensures held { OnOk result (D.held disk.new ≡ option_map (λ _. image.now) (D.held disk.old)) }
    ensures settled { (xs : List ℕ) → D.held disk.old ≡ Some xs → IsSettled moments.old xs (D.past disk.old) → HasRoom moments.new
        → OnOk result (IsSettled moments.new image.now (D.past disk.new)) }
    ensures crash { (xs : List ℕ) → D.held disk.old ≡ Some xs → IsSettled moments.old xs (D.past disk.old) → HasRoom moments.new
        → LeavesIf moments.old moments.new (HasFront 0 xs) (D.past disk.old) (D.past disk.new) }
    ensures left { IsLeft (D.past disk.new) (D.held disk.new) }
    ensures moment { moments.old ≤ moments.new }
    ensures cause { HasCause (D.faults disk.old) (D.faults disk.new) result }
{
    disk.write_at(0, image, moments)?;
    disk.cut(image.len() as u64, moments)?;
    disk.sync(moments)
}

/// Makes a new slot, which becomes the live one at its last write. A crash leaves a slot that is
/// not live, or the whole new one.
pub(crate) fn new_slot<D: Disk>(
    journal: &mut D,
    image: &mut D,
    head: Head,
    bytes: &[u8],
    body: &[u8],
    moments: &mut u64,
) -> Result<(), Failed>
    requires image { length bytes.now ≤ 2 ^ 40 }
    requires short { length body.now < 2 ^ 32 }
    ensures held { OnOk result (D.held journal.new ≡ option_map (λ xs. filled head body.now (closed_head xs)) (D.held journal.old)) }
    ensures crash { (bound : ℕ) (xj xi : List ℕ) → D.held journal.old ≡ Some xj → D.held image.old ≡ Some xi
        → IsSettled moments.old xj (D.past journal.old) → IsSettled moments.old xi (D.past image.old) → HasRoom moments.new → Loses bound xj
        → LeavesTwoIf moments.old moments.new (IsOldOrNew bound (filled head body.now (closed_head xj)) bytes.now) (D.past journal.old) (D.past image.old) (D.past journal.new) (D.past image.new) }
    ensures done { (xj xi : List ℕ) → D.held journal.old ≡ Some xj → D.held image.old ≡ Some xi
        → IsSettled moments.old xj (D.past journal.old) → IsSettled moments.old xi (D.past image.old) → HasRoom moments.new
        → OnOk result (IsDone moments.new (filled head body.now (closed_head xj)) (D.held journal.new) (D.past journal.new) × IsDone moments.new bytes.now (D.held image.new) (D.past image.new)) }
    ensures left_journal { IsLeft (D.past journal.old) (D.held journal.old) → IsLeft (D.past journal.new) (D.held journal.new) }
    ensures left_image { IsLeft (D.past image.old) (D.held image.old) → IsLeft (D.past image.new) (D.held image.new) }
    ensures moment { moments.old ≤ moments.new }
    ensures cause { IsErr result → Rose (D.faults journal.old + D.faults image.old) (D.faults journal.new + D.faults image.new) }
    ensures quiet { OnOk result (D.faults journal.new + D.faults image.new ≡ D.faults journal.old + D.faults image.old) }
{
    close_head(journal, moments)?;
    write_image(image, bytes, moments)?;
    write_head(journal, head, moments)?;
    append(journal, 22, body, moments)?;
    open_gate(journal, 0, moments)
}
