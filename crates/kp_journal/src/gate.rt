//! A batch behind a gate.

ghost use Rattle.std.specs.Prelude.{ℕ, List, Some, ◌≡◌, ◌+◌, ◌^◌, ◌<◌, ◌≤◌, length, OnOk, IfSome};
ghost use Rattle.std.specs.Option.{option_map};
ghost use Rattle.kp_io.specs.Crash.{LeavesIf, IsLeft, IsSettled, HasFront, HasRoom, IsButFor};
ghost use Rattle.kp_io.specs.Faults.{HasCause, one_more};
ghost use Rattle.kp_journal.specs.Gates.{staged, opened, appended, Appended};

use kp_io::{Disk, Failed};

/// Writes a batch behind the closed gate at `gate`, and a closed gate behind the batch, and waits until they outlast a
/// crash. A crash leaves all up to the gate.
pub fn stage<D: Disk>(disk: &mut D, gate: u64, body: &[u8], moments: &mut u64) -> Result<(), Failed>
    requires there { IfSome (D.held disk.old) (λ xs. gate < length xs) }
    requires short { length body.now < 2 ^ 32 }
    requires end { gate + 6 + length body.now ≤ 2 ^ 40 }
    ensures held { OnOk result (D.held disk.new ≡ option_map (staged gate body.now) (D.held disk.old)) }
    ensures settled { (xs : List ℕ) → D.held disk.old ≡ Some xs → IsSettled moments.old xs (D.past disk.old) → HasRoom moments.new
        → OnOk result (IsSettled moments.new (staged gate body.now xs) (D.past disk.new)) }
    ensures crash { (xs : List ℕ) → D.held disk.old ≡ Some xs → IsSettled moments.old xs (D.past disk.old) → HasRoom moments.new
        → LeavesIf moments.old moments.new (HasFront (gate + 1) xs) (D.past disk.old) (D.past disk.new) }
    ensures left { IsLeft (D.past disk.new) (D.held disk.new) }
    ensures moment { moments.old ≤ moments.new }
    ensures cause { HasCause (D.faults disk.old) (D.faults disk.new) result }
{
    let length = (body.len() as u32).to_be_bytes();
    disk.write_at(gate + 1, &length, moments)?;
    disk.write_at(gate + 5, body, moments)?;
    disk.write_at(gate + 5 + body.len() as u64, &[0], moments)?;
    disk.sync(moments)
}

/// Opens the gate, and waits until that outlasts a crash. A crash leaves all but the gate.
pub fn open_gate<D: Disk>(disk: &mut D, gate: u64, moments: &mut u64) -> Result<(), Failed>
    requires there { IfSome (D.held disk.old) (λ xs. gate < length xs) }
    requires end { gate < 2 ^ 40 }
    ensures held { OnOk result (D.held disk.new ≡ option_map (opened gate) (D.held disk.old)) }
    ensures settled { (xs : List ℕ) → D.held disk.old ≡ Some xs → IsSettled moments.old xs (D.past disk.old) → HasRoom moments.new
        → OnOk result (IsSettled moments.new (opened gate xs) (D.past disk.new)) }
    ensures crash { (xs : List ℕ) → D.held disk.old ≡ Some xs → IsSettled moments.old xs (D.past disk.old) → HasRoom moments.new
        → LeavesIf moments.old moments.new (IsButFor gate xs) (D.past disk.old) (D.past disk.new) }
    ensures left { IsLeft (D.past disk.new) (D.held disk.new) }
    ensures moment { moments.old ≤ moments.new }
    ensures cause { HasCause (D.faults disk.old) (D.faults disk.new) result }
{
    disk.write_at(gate, &[1], moments)?;
    disk.sync(moments)
}

/// Adds a batch behind the closed gate at `gate`, and opens the gate. A crash leaves the batch behind a closed gate, or
/// whole behind an open one.
pub fn append<D: Disk>(
    disk: &mut D,
    gate: u64,
    body: &[u8],
    moments: &mut u64,
) -> Result<(), Failed>
    requires there { IfSome (D.held disk.old) (λ xs. gate < length xs) }
    requires short { length body.now < 2 ^ 32 }
    requires end { gate + 6 + length body.now ≤ 2 ^ 40 }
    ensures held { OnOk result (D.held disk.new ≡ option_map (appended gate body.now) (D.held disk.old)) }
    ensures settled { (xs : List ℕ) → D.held disk.old ≡ Some xs → IsSettled moments.old xs (D.past disk.old) → HasRoom moments.new
        → OnOk result (IsSettled moments.new (appended gate body.now xs) (D.past disk.new)) }
    ensures crash { (xs : List ℕ) → D.held disk.old ≡ Some xs → IsSettled moments.old xs (D.past disk.old) → HasRoom moments.new
        → LeavesIf moments.old moments.new (Appended gate body.now xs) (D.past disk.old) (D.past disk.new) }
    ensures left { IsLeft (D.past disk.new) (D.held disk.new) }
    ensures moment { moments.old ≤ moments.new }
    ensures cause { HasCause (D.faults disk.old) (D.faults disk.new) result }
{
    stage(disk, gate, body, moments)?;
    open_gate(disk, gate, moments)
}
