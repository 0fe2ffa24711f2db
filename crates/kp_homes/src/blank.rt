//! The first slot of a blank home.

ghost use Rattle.std.specs.Prelude.{ℕ, Some, None, Ok, [], ◌∷◌, ◌≡◌, ◌+◌, ◌<◌, ◌≤◌, ◌⊎◌, false, length, OnOk, IfOk, IsErr};
ghost use Rattle.kp_io.specs.Crash.{HasRoom};
ghost use Rattle.kp_io.specs.Faults.{Rose};
ghost use Rattle.kp_io.specs.Homes.{home_faults};
ghost use Rattle.kp_entry.specs.declared.record.Record.TheVariants as record_;
ghost use Rattle.kp_entry.specs.Records.{spelled, has_base};
ghost use Rattle.kp_journal.specs.Heads.{IsHead};
ghost use Rattle.kp_journal.specs.Journals.{unread};
ghost use Rattle.kp_homes.specs.Stands.{Bytes4, HomeLeft, IsAtRest, IsReady, Stands, stands, choice, made};
ghost use Rattle.kp_homes.specs.Opening.{AreSound, IsEarlier, first_head, first_records};

use crate::slot::new_slot;
use kp_entry::{Record, Records};
use kp_io::{Disk, Failed, Four};
use kp_journal::Head;
use kp_model::NoMemory;
use std::alloc::Global;

/// The head of the first slot.
pub(crate) fn first_head(node: u8) -> Head
    ensures is { result ≡ first_head node }
    ensures fits { IsHead result }
{
    Head {
        generation: 1,
        node,
        image_len: 0,
    }
}

/// The records of the first slot: no vote in term 0, and the first start.
pub(crate) fn first_records(alloc: Global) -> Result<Records, NoMemory>
    ensures { IfOk result (λ rs. rs ≡ first_records) }
{
    let mut records = Records::new(alloc);
    match push_first(&mut records) {
        Ok(()) => Ok(records),
        Err(none) => {
            drop(records);
            Err(none)
        }
    }
}

fn push_first(records: &mut Records) -> Result<(), NoMemory>
    requires { records.old ≡ [] }
    ensures { OnOk result (records.new ≡ first_records) }
{
    records.push(&Record::Vote { term: 0, vote: 0 })?;
    records.push(&Record::Boot { boot: 1 })
}

/// The record of a start.
pub(crate) fn boot_record(alloc: Global, boot: u64) -> Result<Records, NoMemory>
    ensures { IfOk result (λ rs. rs ≡ record_.Boot boot ∷ []) }
{
    let mut records = Records::new(alloc);
    match records.push(&Record::Boot { boot }) {
        Ok(()) => Ok(records),
        Err(none) => {
            drop(records);
            Err(none)
        }
    }
}

/// Writes the first slot of a blank home, which its last write makes the live one.
pub(crate) fn write_first<H: Disk>(
    disks: &mut Four<H>,
    head: Head,
    records: &Records,
) -> Result<(), Failed>
    requires no_base { has_base records.now ≡ false }
    requires fits { IsHead head }
    requires no_image { head.image_len ≡ 0 }
    ensures crash { (b : Bytes4) → IsAtRest H.held H.past disks.old b → choice b.j0 b.j1 ≡ None → HasRoom disks.new.moments
        → (n : ℕ) (c : Bytes4) → disks.old.moments < n → HomeLeft H.past disks.new n c → (stands head.node c ≡ None) ⊎ (stands head.node c ≡ Some (Ok (made head [] records.now))) }
    ensures earlier { (b : Bytes4) → IsAtRest H.held H.past disks.old b → choice b.j0 b.j1 ≡ None → HasRoom disks.new.moments → IsEarlier H.past disks.old disks.new }
    ensures sound { (b : Bytes4) → IsAtRest H.held H.past disks.old b → choice b.j0 b.j1 ≡ None → HasRoom disks.new.moments → AreSound H.held H.past disks.new }
    ensures rest { (b : Bytes4) → IsAtRest H.held H.past disks.old b → choice b.j0 b.j1 ≡ None → HasRoom disks.new.moments
        → OnOk result ((c : Bytes4) × Stands H.held H.past disks.new false (unread head (27 + length (spelled records.now))) c (made head [] records.now)) }
    ensures ready { OnOk result (IsReady false (H.held disks.new.j0) (H.held disks.new.j1) (unread head (27 + length (spelled records.now)))) }
    ensures fault { IsErr result → Rose (home_faults H.faults disks.old) (home_faults H.faults disks.new) }
    ensures moment { disks.old.moments ≤ disks.new.moments }
{
    let body = records.bytes();
    new_slot(
        &mut disks.j0,
        &mut disks.i0,
        head,
        &[],
        body,
        &mut disks.moments,
    )
}
