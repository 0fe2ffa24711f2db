//! The records of several events as one batch.

ghost use Rattle.std.specs.Prelude.{◌≡◌, ◌⊎◌, ◌↔◌, ℕ, ◌+◌, ◌^◌, ◌<◌, ◌≤◌, true, false, [], length, IfOk, IsOk, OnOk, IsErrOf};
ghost use Rattle.kp_io.specs.Homes.{home_faults};
ghost use Rattle.kp_entry.specs.Records.{has_base, spelled};
ghost use Rattle.kp_homes.specs.declared.fail.HomeFail.{HomeFail};
ghost use Rattle.kp_homes.specs.declared.fail.HomeFail.TheVariants as home_fail;
ghost use Rattle.kp_homes.specs.declared.home.Home.{Home};
ghost use Rattle.kp_homes.specs.Stands.{IsOfWriting, IsReady, slot_number};
ghost use Rattle.kp_kept.specs.Ahead.{all_records, all_want};
ghost use Rattle.kp_kept.specs.Answers.{Costs};
ghost use Rattle.kp_kept.specs.Finding.{LeavesBatch, HasBatch};
ghost use Rattle.kp_kept.specs.Lengths.{IsOver, batch_place};

use kp_entry::Records;
use kp_homes::{Home, HomeFail};
use kp_io::Disk;
use kp_model::NoMemory;
use std::alloc::Global;

// All these records, one behind the other.
fn joined(alloc: Global, waiting: &[Records]) -> Result<Records, NoMemory>
    requires { has_base (all_records waiting.now) ≡ false }
    ensures { IfOk result (λ rs. rs ≡ all_records waiting.now) }
{
    let mut all = Records::new(alloc);
    match join_all(waiting, &mut all) {
        Ok(()) => Ok(all),
        Err(none) => {
            drop(all);
            Err(none)
        }
    }
}

// Puts all these records into an empty list. Without memory some of them are there.
fn join_all(waiting: &[Records], all: &mut Records) -> Result<(), NoMemory>
    requires plain { has_base (all_records waiting.now) ≡ false }
    requires none { all.old ≡ [] }
    ensures { OnOk result (all.new ≡ all_records waiting.now) }
{
    for records in waiting {
        all.join(records)?;
    }
    Ok(())
}

/// Puts all these records into a home as one batch, where there are any. Those of one event alone are put as
/// they are, without memory. Full comes exactly where the journal would pass 2^40 bytes, if there is memory.
pub(crate) fn put<H: Disk>(
    alloc: Global,
    home: &mut Home<H>,
    waiting: &[Records],
) -> Result<(), HomeFail>
    requires ready { IsReady home.old.second (H.held home.old.disks.j0) (H.held home.old.disks.j1) home.old.journal }
    requires plain { has_base (all_records waiting.now) ≡ false }
    requires wanted { all_want waiting.now ≡ true }
    ensures crash { LeavesBatch H.held H.past home.old home.new (all_records waiting.now) }
    ensures keeps { OnOk result (HasBatch H.held H.past home.old home.new (all_records waiting.now)) }
    ensures ready { OnOk result (IsReady home.new.second (H.held home.new.disks.j0) (H.held home.new.disks.j1) home.new.journal) }
    ensures head { OnOk result (home.new.journal.head ≡ home.old.journal.head) }
    ensures full { (slot len : ℕ) → IsErrOf result (home_fail.Full slot len) → IsOver (batch_place home.old.second home.old.journal.gate (all_records waiting.now)) slot len }
    ensures over { (slot len : ℕ) → IsOver (batch_place home.old.second home.old.journal.gate (all_records waiting.now)) slot len → IsErrOf result (home_fail.Full slot len) ⊎ IsErrOf result home_fail.NoMemory }
    ensures memory { IsErrOf result home_fail.NoMemory → 2 ≤ length waiting.now }
    ensures none { waiting.now ≡ [] → (home.new ≡ home.old) × IsOk result }
    ensures costs { Costs (λ (h : Home H). home_faults H.faults h.disks) home.old home.new result }
{
    match waiting {
        [] => Ok(()),
        [records] => put_one(home, records),
        _ => put_joined(alloc, home, waiting),
    }
}

/// Puts these records into a home as one batch.
pub(crate) fn put_one<H: Disk>(home: &mut Home<H>, records: &Records) -> Result<(), HomeFail>
    requires ready { IsReady home.old.second (H.held home.old.disks.j0) (H.held home.old.disks.j1) home.old.journal }
    requires plain { has_base records.now ≡ false }
    ensures crash { LeavesBatch H.held H.past home.old home.new records.now }
    ensures keeps { OnOk result (HasBatch H.held H.past home.old home.new records.now) }
    ensures ready { OnOk result (IsReady home.new.second (H.held home.new.disks.j0) (H.held home.new.disks.j1) home.new.journal) }
    ensures head { OnOk result (home.new.journal.head ≡ home.old.journal.head) }
    ensures full { (slot len : ℕ) → IsErrOf result (home_fail.Full slot len) ↔ ((2 ^ 40 < len) × (len ≡ home.old.journal.gate + 6 + length (spelled records.now)) × (slot ≡ slot_number home.old.second)) }
    ensures only { (e : HomeFail) → IsErrOf result e → IsOfWriting e }
    ensures costs { Costs (λ (h : Home H). home_faults H.faults h.disks) home.old home.new result }
{
    home.append_batch(records)
}

// The same by a list of its own.
fn put_joined<H: Disk>(
    alloc: Global,
    home: &mut Home<H>,
    waiting: &[Records],
) -> Result<(), HomeFail>
    requires ready { IsReady home.old.second (H.held home.old.disks.j0) (H.held home.old.disks.j1) home.old.journal }
    requires plain { has_base (all_records waiting.now) ≡ false }
    ensures crash { LeavesBatch H.held H.past home.old home.new (all_records waiting.now) }
    ensures keeps { OnOk result (HasBatch H.held H.past home.old home.new (all_records waiting.now)) }
    ensures ready { OnOk result (IsReady home.new.second (H.held home.new.disks.j0) (H.held home.new.disks.j1) home.new.journal) }
    ensures head { OnOk result (home.new.journal.head ≡ home.old.journal.head) }
    ensures full { (slot len : ℕ) → IsErrOf result (home_fail.Full slot len) → (2 ^ 40 < len) × (len ≡ home.old.journal.gate + 6 + length (spelled (all_records waiting.now))) × (slot ≡ slot_number home.old.second) }
    ensures over { (slot len : ℕ) → (2 ^ 40 < len) × (len ≡ home.old.journal.gate + 6 + length (spelled (all_records waiting.now))) × (slot ≡ slot_number home.old.second) → IsErrOf result (home_fail.Full slot len) ⊎ IsErrOf result home_fail.NoMemory }
    ensures costs { Costs (λ (h : Home H). home_faults H.faults h.disks) home.old home.new result }
{
    let all = joined(alloc, waiting)?;
    let kept = put_one(home, &all);
    drop(all);
    kept
}
