//! Reading a home: which slot is live, and what it holds.

ghost use Rattle.std.specs.Prelude.{ℕ, Some, Ok, Err, true, false, ◌≡◌, ◌+◌, ◌<◌, ◌≤◌, cond, length, take, nat_lt, IfOk, OnOk, IfSome, IsErr, IsErrOf};
ghost use Rattle.kp_io.specs.Faults.{Rose};
ghost use Rattle.kp_io.specs.Homes.{home_faults};
ghost use Rattle.kp_journal.specs.Heads.{open_generation};
ghost use Rattle.kp_journal.specs.Journals.{StandsFor, journal_of};
ghost use Rattle.kp_homes.specs.declared.fail.HomeFail.TheVariants as home_fail;
ghost use Rattle.kp_homes.specs.Stands.{Bytes4, slot_of, choice, IsReady};
ghost use Rattle.kp_homes.specs.Opening.{IsWithin, chosen, found, found_in, behind_image, image_in, image_on, Says, Finds, Holds};
ghost use Rattle.kp_homes.specs.Reading.{found_of, seen, HasJournal, IsLive, IsUntouched, ReadsJournal, some_live};

use crate::fail::{HomeFail, fail_in};
use crate::replay::Replay;
use kp_io::{Disk, Failed, Four};
use kp_journal::{Journal, open_generation, read_front};
use kp_snapshot::{Image, ImageFail};
use std::alloc::Global;

/// What was read of the live slot.
#[derive(Drop)]
pub(crate) struct Live {
    /// Whether it is the second one.
    pub(crate) second: bool,
    pub(crate) journal: Journal,
    pub(crate) image: Option<Image>,
    /// What the journal's records leave behind the image.
    pub(crate) replay: Replay,
}

// The first bytes of the image's disk of a slot, so many.
fn read_bytes<D: Disk>(
    alloc: Global,
    disk: &mut D,
    len: u64,
    slot: u64,
    moments: &mut u64,
) -> Result<Vec<u8>, HomeFail>
    ensures read { IfSome (D.held disk.old) (λ ys. Finds (λ v. v.items) result (cond (nat_lt (length ys) len) (Err (home_fail.Damaged slot 14)) (Ok (take len ys)))) }
    ensures fault { IsErrOf result home_fail.DiskFault → Rose (D.faults disk.old) (D.faults disk.new) }
    ensures quiet { OnOk result (D.faults disk.new ≡ D.faults disk.old) }
    ensures no_full { (s n : ℕ) → IsErrOf result (home_fail.Full s n) → ⊥ }
    ensures keeps { D.held disk.new ≡ D.held disk.old }
    ensures past { D.past disk.new ≡ D.past disk.old }
    ensures moment { moments.old ≤ moments.new }
{
    let there = disk.len(moments)?;
    if there < len {
        return Err(HomeFail::Damaged { slot, at: 14 });
    }
    let mut bytes = zeros(alloc, len as usize)?;
    match read_front(disk, &mut bytes, moments) {
        Ok(filled) => {
            bytes.truncate(filled);
            Ok(bytes)
        }
        Err(_) => {
            drop(bytes);
            Err(HomeFail::DiskFault)
        }
    }
}

// So many zeros.
fn zeros(alloc: Global, count: usize) -> Result<Vec<u8>, HomeFail>
    ensures made { IfOk result (λ v. length v.items ≡ count) }
    ensures only { (f : HomeFail) → IsErrOf result f → f ≡ home_fail.NoMemory }
{
    match vec![in alloc; 0u8; count] {
        Ok(bytes) => Ok(bytes),
        Err(_) => Err(HomeFail::NoMemory),
    }
}

// The image that these bytes of a slot are.
fn image_from(alloc: Global, bytes: Vec<u8>, slot: u64) -> Result<Option<Image>, HomeFail>
    requires { slot < 2 }
    ensures says { 0 < length bytes.items → Says (λ i. i) result (image_in slot bytes.items) }
    ensures no_fault { IsErrOf result home_fail.DiskFault → ⊥ }
    ensures no_full { (s n : ℕ) → IsErrOf result (home_fail.Full s n) → ⊥ }
{
    match Image::from_vec(alloc, bytes) {
        Ok(image) => Ok(Some(image)),
        Err(ImageFail::Damaged { at }) => Err(HomeFail::Damaged {
            slot: slot + 2,
            at: at as u64,
        }),
        Err(ImageFail::NoMemory) => Err(HomeFail::NoMemory),
    }
}

// The image of a slot, of so many bytes; none where there are none, and then its disk is not looked at.
fn read_image<D: Disk>(
    alloc: Global,
    disk: &mut D,
    len: u64,
    slot: u64,
    moments: &mut u64,
) -> Result<Option<Image>, HomeFail>
    requires { slot < 2 }
    ensures read { IfSome (D.held disk.old) (λ ys. Finds (λ i. i) result (image_on slot len ys)) }
    ensures fault { IsErrOf result home_fail.DiskFault → Rose (D.faults disk.old) (D.faults disk.new) }
    ensures quiet { OnOk result (D.faults disk.new ≡ D.faults disk.old) }
    ensures no_full { (s n : ℕ) → IsErrOf result (home_fail.Full s n) → ⊥ }
    ensures keeps { D.held disk.new ≡ D.held disk.old }
    ensures past { D.past disk.new ≡ D.past disk.old }
    ensures moment { moments.old ≤ moments.new }
{
    if len == 0 {
        return Ok(None);
    }
    let bytes = read_bytes(alloc, disk, len, slot, moments)?;
    image_from(alloc, bytes, slot)
}

// The records of a journal replayed behind the image of its slot.
fn replayed(
    alloc: Global,
    second: bool,
    slot: u64,
    journal: Journal,
    image: Option<Image>,
) -> Result<Live, HomeFail>
    ensures says { Says found_of result (behind_image slot journal.run (Ok image)) }
    ensures journal { IfOk result (λ l. l.journal ≡ journal) }
    ensures room { IfOk result (λ l. IsWithin l.image l.replay.held.log.entries) }
    ensures second { IfOk result (λ l. l.second ≡ second) }
    ensures no_fault { IsErrOf result home_fail.DiskFault → ⊥ }
    ensures no_full { (s n : ℕ) → IsErrOf result (home_fail.Full s n) → ⊥ }
{
    let mut replay = Replay::behind(alloc, &image);
    match replay.take_all(alloc, &journal, slot) {
        Ok(()) => Ok(Live {
            second,
            journal,
            image,
            replay,
        }),
        Err(fail) => {
            drop(replay);
            drop(image);
            drop(journal);
            Err(fail)
        }
    }
}

// The journal of a slot.
fn read_journal<D: Disk>(
    alloc: Global,
    disk: &mut D,
    node: u8,
    slot: u64,
    moments: &mut u64,
) -> Result<Journal, HomeFail>
    ensures read { IfSome (D.held disk.old) (λ xs. ReadsJournal slot result (journal_of node xs)) }
    ensures ready { IfOk result (λ j. IfSome (D.held disk.new) (StandsFor j)) }
    ensures node { IfOk result (λ j. j.head.node ≡ node) }
    ensures fault { IsErrOf result home_fail.DiskFault → Rose (D.faults disk.old) (D.faults disk.new) }
    ensures no_full { (s n : ℕ) → IsErrOf result (home_fail.Full s n) → ⊥ }
    ensures quiet { OnOk result (D.faults disk.new ≡ D.faults disk.old) }
    ensures keeps { D.held disk.new ≡ D.held disk.old }
    ensures past { D.past disk.new ≡ D.past disk.old }
    ensures moment { moments.old ≤ moments.new }
{
    match Journal::read_all(alloc, disk, node, moments) {
        Ok(journal) => Ok(journal),
        Err(fail) => Err(fail_in(slot, fail)),
    }
}

// What a slot holds.
fn read_slot<D: Disk>(
    alloc: Global,
    journal: &mut D,
    image: &mut D,
    node: u8,
    second: bool,
    slot: u64,
    moments: &mut u64,
) -> Result<Live, HomeFail>
    requires { slot < 2 }
    ensures read { IfSome (D.held journal.old) (λ xs. IfSome (D.held image.old) (λ ys. Finds found_of result (found_in slot (slot_of slot (journal_of node xs) ys)))) }
    ensures stand { IfSome (D.held journal.old) (λ xs. IfSome (D.held image.old) (λ ys. IfOk result (λ l. HasJournal (slot_of slot (journal_of node xs) ys) l.journal))) }
    ensures ready { IfOk result (λ l. IfSome (D.held journal.new) (StandsFor l.journal)) }
    ensures node { IfOk result (λ l. l.journal.head.node ≡ node) }
    ensures room { IfOk result (λ l. IsWithin l.image l.replay.held.log.entries) }
    ensures second { IfOk result (λ l. l.second ≡ second) }
    ensures fault { IsErrOf result home_fail.DiskFault → Rose (D.faults journal.old + D.faults image.old) (D.faults journal.new + D.faults image.new) }
    ensures quiet { OnOk result (D.faults journal.new + D.faults image.new ≡ D.faults journal.old + D.faults image.old) }
    ensures no_full { (s n : ℕ) → IsErrOf result (home_fail.Full s n) → ⊥ }
    ensures keeps_journal { D.held journal.new ≡ D.held journal.old }
    ensures keeps_image { D.held image.new ≡ D.held image.old }
    ensures past_journal { D.past journal.new ≡ D.past journal.old }
    ensures past_image { D.past image.new ≡ D.past image.old }
    ensures moment { moments.old ≤ moments.new }
{
    let found = read_journal(alloc, journal, node, slot, moments)?;
    match read_image(alloc, image, found.image_len(), slot, moments) {
        Ok(image) => replayed(alloc, second, slot, found, image),
        Err(fail) => {
            drop(found);
            Err(fail)
        }
    }
}

// Whether the second slot is the live one, by the generations of the open heads; None of a blank home.
fn chosen(first: Option<u64>, second: Option<u64>) -> Option<bool>
    ensures { result ≡ chosen first second }
{
    match (first, second) {
        (None, None) => None,
        (None, Some(_)) => Some(true),
        (Some(_), None) => Some(false),
        (Some(a), Some(b)) => Some(a < b),
    }
}

// Whether the second slot of a home is the live one; None of a blank home.
fn choose<D: Disk>(first: &mut D, second: &mut D, moments: &mut u64) -> Result<Option<bool>, Failed>
    ensures live { IfOk result (λ o. IfSome (D.held first.old) (λ xs. IfSome (D.held second.old) (λ ys. o ≡ choice xs ys))) }
    ensures fault { IsErr result → Rose (D.faults first.old + D.faults second.old) (D.faults first.new + D.faults second.new) }
    ensures quiet { OnOk result (D.faults first.new + D.faults second.new ≡ D.faults first.old + D.faults second.old) }
    ensures keeps_first { D.held first.new ≡ D.held first.old }
    ensures keeps_second { D.held second.new ≡ D.held second.old }
    ensures past_first { D.past first.new ≡ D.past first.old }
    ensures past_second { D.past second.new ≡ D.past second.old }
    ensures moment { moments.old ≤ moments.new }
{
    let a = open_generation(first, moments)?;
    let b = open_generation(second, moments)?;
    Ok(chosen(a, b))
}

/// What the disks of this node's home hold; None of a blank home. Changes nothing that they hold.
pub(crate) fn look<H: Disk>(
    alloc: Global,
    disks: &mut Four<H>,
    node: u8,
) -> Result<Option<Live>, HomeFail>
    ensures read { (b : Bytes4) → Holds H.held disks.old b → Finds seen result (found node b) }
    ensures live { (b : Bytes4) → Holds H.held disks.old b → IfOk result (λ l. IsLive node b l) }
    ensures ready { IfOk result (λ l. IfSome l (λ v. IsReady v.second (H.held disks.new.j0) (H.held disks.new.j1) v.journal)) }
    ensures node { IfOk result (λ l. IfSome l (λ v. v.journal.head.node ≡ node)) }
    ensures room { IfOk result (λ l. IfSome l (λ v. IsWithin v.image v.replay.held.log.entries)) }
    ensures fault { IsErrOf result home_fail.DiskFault → Rose (home_faults H.faults disks.old) (home_faults H.faults disks.new) }
    ensures quiet { OnOk result (home_faults H.faults disks.new ≡ home_faults H.faults disks.old) }
    ensures no_full { (s n : ℕ) → IsErrOf result (home_fail.Full s n) → ⊥ }
    ensures same { IsUntouched H.held H.past disks.old disks.new }
    ensures moment { disks.old.moments ≤ disks.new.moments }
{
    let live = choose(&mut disks.j0, &mut disks.j1, &mut disks.moments)?;
    match live {
        None => Ok(None),
        Some(second) => read_live(alloc, disks, node, second),
    }
}

// What the live slot holds.
fn read_live<H: Disk>(
    alloc: Global,
    disks: &mut Four<H>,
    node: u8,
    second: bool,
) -> Result<Option<Live>, HomeFail>
    ensures read { (b : Bytes4) → Holds H.held disks.old b → choice b.j0 b.j1 ≡ Some second → Finds seen result (found node b) }
    ensures live { (b : Bytes4) → Holds H.held disks.old b → choice b.j0 b.j1 ≡ Some second → IfOk result (λ l. IsLive node b l) }
    ensures ready { IfOk result (λ l. IfSome l (λ v. IsReady v.second (H.held disks.new.j0) (H.held disks.new.j1) v.journal)) }
    ensures node { IfOk result (λ l. IfSome l (λ v. v.journal.head.node ≡ node)) }
    ensures room { IfOk result (λ l. IfSome l (λ v. IsWithin v.image v.replay.held.log.entries)) }
    ensures fault { IsErrOf result home_fail.DiskFault → Rose (home_faults H.faults disks.old) (home_faults H.faults disks.new) }
    ensures quiet { OnOk result (home_faults H.faults disks.new ≡ home_faults H.faults disks.old) }
    ensures no_full { (s n : ℕ) → IsErrOf result (home_fail.Full s n) → ⊥ }
    ensures same { IsUntouched H.held H.past disks.old disks.new }
    ensures moment { disks.old.moments ≤ disks.new.moments }
{
    if second {
        some_live(read_second(alloc, disks, node))
    } else {
        some_live(read_first(alloc, disks, node))
    }
}

// What the first slot holds.
fn read_first<H: Disk>(alloc: Global, disks: &mut Four<H>, node: u8) -> Result<Live, HomeFail>
    ensures read { (b : Bytes4) → Holds H.held disks.old b → choice b.j0 b.j1 ≡ Some false → Finds found_of result (found node b) }
    ensures live { (b : Bytes4) → Holds H.held disks.old b → choice b.j0 b.j1 ≡ Some false → IfOk result (λ l. IsLive node b (Some l)) }
    ensures ready { IfOk result (λ v. IsReady v.second (H.held disks.new.j0) (H.held disks.new.j1) v.journal) }
    ensures node { IfOk result (λ l. l.journal.head.node ≡ node) }
    ensures room { IfOk result (λ l. IsWithin l.image l.replay.held.log.entries) }
    ensures fault { IsErrOf result home_fail.DiskFault → Rose (home_faults H.faults disks.old) (home_faults H.faults disks.new) }
    ensures quiet { OnOk result (home_faults H.faults disks.new ≡ home_faults H.faults disks.old) }
    ensures no_full { (s n : ℕ) → IsErrOf result (home_fail.Full s n) → ⊥ }
    ensures same { IsUntouched H.held H.past disks.old disks.new }
    ensures moment { disks.old.moments ≤ disks.new.moments }
{
    read_slot(
        alloc,
        &mut disks.j0,
        &mut disks.i0,
        node,
        false,
        0,
        &mut disks.moments,
    )
}

// What the second slot holds.
fn read_second<H: Disk>(alloc: Global, disks: &mut Four<H>, node: u8) -> Result<Live, HomeFail>
    ensures read { (b : Bytes4) → Holds H.held disks.old b → choice b.j0 b.j1 ≡ Some true → Finds found_of result (found node b) }
    ensures live { (b : Bytes4) → Holds H.held disks.old b → choice b.j0 b.j1 ≡ Some true → IfOk result (λ l. IsLive node b (Some l)) }
    ensures ready { IfOk result (λ v. IsReady v.second (H.held disks.new.j0) (H.held disks.new.j1) v.journal) }
    ensures node { IfOk result (λ l. l.journal.head.node ≡ node) }
    ensures room { IfOk result (λ l. IsWithin l.image l.replay.held.log.entries) }
    ensures fault { IsErrOf result home_fail.DiskFault → Rose (home_faults H.faults disks.old) (home_faults H.faults disks.new) }
    ensures quiet { OnOk result (home_faults H.faults disks.new ≡ home_faults H.faults disks.old) }
    ensures no_full { (s n : ℕ) → IsErrOf result (home_fail.Full s n) → ⊥ }
    ensures same { IsUntouched H.held H.past disks.old disks.new }
    ensures moment { disks.old.moments ≤ disks.new.moments }
{
    read_slot(
        alloc,
        &mut disks.j1,
        &mut disks.i1,
        node,
        true,
        1,
        &mut disks.moments,
    )
}

// The same, of a home that is not blank.
fn some_live(read: Result<Live, HomeFail>) -> Result<Option<Live>, HomeFail>
    ensures { result ≡ some_live read }
{
    match read {
        Ok(live) => Ok(Some(live)),
        Err(fail) => Err(fail),
    }
}
