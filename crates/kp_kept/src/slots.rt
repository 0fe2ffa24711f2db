//! What waits for a node is put into its home.

ghost use Rattle.std.specs.Prelude.{◌≡◌, ◌⊎◌, ◌↔◌, ℕ, ◌+◌, ◌^◌, ◌<◌, ◌≤◌, true, false, cond, List, [], length, None, OnOk, IsOk, IsSome, IsErrOf};
ghost use Rattle.kp_io.specs.Homes.{home_faults};
ghost use Rattle.kp_entry.specs.declared.record.Record.{Record};
ghost use Rattle.kp_entry.specs.Records.{has_base};
ghost use Rattle.kp_homes.specs.declared.fail.HomeFail.{HomeFail};
ghost use Rattle.kp_homes.specs.declared.fail.HomeFail.TheVariants as home_fail;
ghost use Rattle.kp_homes.specs.declared.home.Home.{Home};
ghost use Rattle.kp_homes.specs.Replays.{image_bytes};
ghost use Rattle.kp_homes.specs.Stands.{IsOfWriting, IsReady};
ghost use Rattle.kp_node.specs.Parts.{node_of};
ghost use Rattle.kp_kept.specs.Ahead.{all_records, all_want};
ghost use Rattle.kp_kept.specs.Answers.{Costs};
ghost use Rattle.kp_kept.specs.Finding.{LeavesBatch, HasBatch, LeavesNode, HasNode};
ghost use Rattle.kp_kept.specs.Lengths.{IsOver, place_of};
ghost use Rattle.kp_kept.specs.Tearing.{LeavesPart, HasPart};

use crate::batches::{put, put_one};
use kp_entry::Records;
use kp_homes::{Home, HomeFail, Whole};
use kp_io::Disk;
use kp_node::Node;
use kp_snapshot::Image;
use std::alloc::Global;

// Makes a home stand for the image of the base of a node's log, and for that log behind it.
fn put_image<H: Disk>(
    node: &Node,
    home: &mut Home<H>,
    image: &mut Option<Image>,
) -> Result<(), HomeFail>
    requires { IsSome image.old }
    ensures same { image.new ≡ image.old }
    ensures crash { (rs : List Record) → LeavesNode H.held H.past home.old home.new image.old rs (node_of node.now) }
    ensures keeps { (rs : List Record) → OnOk result (HasNode H.held H.past home.old home.new image.old rs (node_of node.now)) }
    ensures ready { OnOk result (IsReady home.new.second (H.held home.new.disks.j0) (H.held home.new.disks.j1) home.new.journal) }
    ensures node { OnOk result (home.new.journal.head.node ≡ home.old.journal.head.node) }
    ensures full { (slot len : ℕ) → IsErrOf result (home_fail.Full slot len) → (2 ^ 40 < len) × (len ≡ length (image_bytes image.old)) × (slot ≡ cond home.old.second 2 3) }
    ensures over { (slot len : ℕ) → (2 ^ 40 < len) × (len ≡ length (image_bytes image.old)) × (slot ≡ cond home.old.second 2 3) → IsErrOf result (home_fail.Full slot len) ⊎ IsErrOf result home_fail.NoMemory }
    ensures costs { Costs (λ (h : Home H). home_faults H.faults h.disks) home.old home.new result }
{
    let _last = node.last();
    let rest = node.held_records()?;
    let whole = Whole {
        image: image.take(),
        rest,
    };
    let kept = home.compact(&whole);
    let Whole { image: same, rest } = whole;
    drop(rest);
    *image = same;
    kept
}

/// Puts what waits for a node into its home: the image, with the node's own log behind it, or else the records. Memory is
/// wanted for an image and for the records of several events alone, and Full comes exactly where that image or the journal
/// would pass 2^40 bytes, if there is memory.
pub(crate) fn put_waiting<H: Disk>(
    alloc: Global,
    node: &Node,
    home: &mut Home<H>,
    waiting: &[Records],
    image: &mut Option<Image>,
) -> Result<(), HomeFail>
    requires ready { IsReady home.old.second (H.held home.old.disks.j0) (H.held home.old.disks.j1) home.old.journal }
    requires plain { has_base (all_records waiting.now) ≡ false }
    requires wanted { all_want waiting.now ≡ true }
    ensures same { image.new ≡ image.old }
    ensures crash { LeavesNode H.held H.past home.old home.new image.old (all_records waiting.now) (node_of node.now) }
    ensures keeps { OnOk result (HasNode H.held H.past home.old home.new image.old (all_records waiting.now) (node_of node.now)) }
    ensures ready { OnOk result (IsReady home.new.second (H.held home.new.disks.j0) (H.held home.new.disks.j1) home.new.journal) }
    ensures node { OnOk result (home.new.journal.head.node ≡ home.old.journal.head.node) }
    ensures full { (slot len : ℕ) → IsErrOf result (home_fail.Full slot len) → IsOver (place_of home.old.second home.old.journal.gate image.old (all_records waiting.now)) slot len }
    ensures over { (slot len : ℕ) → IsOver (place_of home.old.second home.old.journal.gate image.old (all_records waiting.now)) slot len → IsErrOf result (home_fail.Full slot len) ⊎ IsErrOf result home_fail.NoMemory }
    ensures memory { IsErrOf result home_fail.NoMemory → IsSome image.old ⊎ (2 ≤ length waiting.now) }
    ensures none { image.old ≡ None → waiting.now ≡ [] → (home.new ≡ home.old) × IsOk result }
    ensures costs { Costs (λ (h : Home H). home_faults H.faults h.disks) home.old home.new result }
{
    if image.is_some() {
        put_image(node, home, image)
    } else {
        put(alloc, home, waiting)
    }
}

/// Puts the first records of a step into the home of its node: where an image stands for the last of them, that image with
/// the node's own log behind it; or else these records, where there are any. Memory is wanted for an image alone.
pub(crate) fn put_part<H: Disk>(
    node: &Node,
    home: &mut Home<H>,
    records: &Records,
    image: &mut Option<Image>,
) -> Result<(), HomeFail>
    requires ready { IsReady home.old.second (H.held home.old.disks.j0) (H.held home.old.disks.j1) home.old.journal }
    requires plain { image.old ≡ None → has_base records.now ≡ false }
    ensures same { image.new ≡ image.old }
    ensures crash { LeavesPart H.held H.past home.old home.new image.old records.now (node_of node.now) }
    ensures keeps { OnOk result (HasPart H.held H.past home.old home.new image.old records.now (node_of node.now)) }
    ensures node { OnOk result (home.new.journal.head.node ≡ home.old.journal.head.node) }
    ensures memory { IsErrOf result home_fail.NoMemory → IsSome image.old }
    ensures costs { Costs (λ (h : Home H). home_faults H.faults h.disks) home.old home.new result }
{
    if image.is_some() {
        put_image(node, home, image)
    } else {
        put_some(home, records)
    }
}

// Puts these records into a home as one batch, where there are any. Takes no memory.
fn put_some<H: Disk>(home: &mut Home<H>, records: &Records) -> Result<(), HomeFail>
    requires ready { IsReady home.old.second (H.held home.old.disks.j0) (H.held home.old.disks.j1) home.old.journal }
    requires plain { has_base records.now ≡ false }
    ensures crash { LeavesBatch H.held H.past home.old home.new records.now }
    ensures keeps { OnOk result (HasBatch H.held H.past home.old home.new records.now) }
    ensures node { OnOk result (home.new.journal.head.node ≡ home.old.journal.head.node) }
    ensures only { (e : HomeFail) → IsErrOf result e → IsOfWriting e }
    ensures costs { Costs (λ (h : Home H). home_faults H.faults h.disks) home.old home.new result }
{
    if records.len() == 0 {
        Ok(())
    } else {
        put_one(home, records)
    }
}
