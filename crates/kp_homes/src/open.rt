//! Opening a home.

ghost use Rattle.std.specs.Prelude.{ℕ, Some, None, Ok, ◌∷◌, [], ◌≡◌, ◌^◌, ◌<◌, ◌≤◌, ◌⊎◌, false, IfOk, OnOk, IfSome, IsErrOf};
ghost use Rattle.kp_io.specs.Crash.{HasRoom};
ghost use Rattle.kp_io.specs.Faults.{Rose};
ghost use Rattle.kp_io.specs.Homes.{home_faults};
ghost use Rattle.kp_entry.specs.declared.record.Record.TheVariants as record_;
ghost use Rattle.kp_entry.specs.Records.{has_base};
ghost use Rattle.kp_journal.specs.Heads.{IsHead};
ghost use Rattle.kp_homes.specs.declared.fail.HomeFail.TheVariants as home_fail;
ghost use Rattle.kp_homes.specs.Stands.{Bytes4, Stand, HomeLeft, IsAtRest, IsReady, Stands, StandsForEither, stands, choice, with_more, made};
ghost use Rattle.kp_homes.specs.Opening.{AreTold, AreSound, Finds, Found, Holds, IsEarlier, LeftNow, found, blank_found, booted, IsWithin, next_boot, first_head, first_records};
ghost use Rattle.kp_homes.specs.Reading.{seen, found_of, IsLive};
ghost use Rattle.kp_homes.specs.Homes.{IsKept, IsInRange, IsOfStart, IsOfFirst, Keeps, Opens, IsBootedOrNot, disks_of, fail_of};

use crate::blank::{boot_record, first_head, first_records, write_first};
use crate::fail::HomeFail;
use crate::home::Home;
use crate::kept::Kept0;
use crate::reading::{Live, look};
use crate::syncing::settle_all;
use kp_entry::Records;
use kp_io::{Disk, Four};
use kp_journal::{Head, Journal};
use kp_model::limits::LAST_NUMBER;
use std::alloc::Global;

// The number of the next start.
fn next_boot(boot: u64) -> u64
    ensures next { result ≡ next_boot boot }
    ensures limit { result ≤ 2 ^ 62 }
{
    boot.saturating_add(1).min(LAST_NUMBER)
}

// Syncs the disks and looks at what they hold.
fn begin<H: Disk>(alloc: Global, disks: &mut Four<H>, node: u8) -> Result<Option<Live>, HomeFail>
    ensures read { (b : Bytes4) → Holds H.held disks.old b → Finds seen result (found node b) }
    ensures live { (b : Bytes4) → Holds H.held disks.old b → IfOk result (λ l. IsLive node b l) }
    ensures left { (b : Bytes4) → AreTold H.held H.past disks.old b → HasRoom disks.new.moments → (n : ℕ) (c : Bytes4) → disks.old.moments < n → HomeLeft H.past disks.new n c → LeftNow H.past disks.old c }
    ensures sound { (b : Bytes4) → AreTold H.held H.past disks.old b → LeftNow H.past disks.old b → AreSound H.held H.past disks.new }
    ensures rest { (b : Bytes4) → AreTold H.held H.past disks.old b → HasRoom disks.new.moments → IfOk result (λ _. IsAtRest H.held H.past disks.new b) }
    ensures ready { IfOk result (λ l. IfSome l (λ v. IsReady v.second (H.held disks.new.j0) (H.held disks.new.j1) v.journal)) }
    ensures node { IfOk result (λ l. IfSome l (λ v. v.journal.head.node ≡ node)) }
    ensures room { IfOk result (λ l. IfSome l (λ v. IsWithin v.image v.replay.held.log.entries)) }
    ensures fault { IsErrOf result home_fail.DiskFault → Rose (home_faults H.faults disks.old) (home_faults H.faults disks.new) }
    ensures quiet { OnOk result (home_faults H.faults disks.new ≡ home_faults H.faults disks.old) }
    ensures no_full { (slot len : ℕ) → IsErrOf result (home_fail.Full slot len) → ⊥ }
    ensures moment { disks.old.moments ≤ disks.new.moments }
{
    settle_all(disks)?;
    look(alloc, disks, node)
}

// Adds the next start to what was found.
fn start_live<H: Disk>(
    alloc: Global,
    disks: Four<H>,
    live: Live,
) -> Result<(Home<H>, Kept0), (HomeFail, Four<H>)>
    requires ready { IsReady live.second (H.held disks.j0) (H.held disks.j1) live.journal }
    ensures crash { (b : Bytes4) (v : Stand) → Stands H.held H.past disks live.second live.journal b v → HasRoom (disks_of result).moments
        → StandsForEither live.journal.head.node H.past disks.moments (disks_of result) v (with_more (record_.Boot (next_boot live.replay.boot) ∷ []) v) }
    ensures earlier { (b : Bytes4) (v : Stand) → Stands H.held H.past disks live.second live.journal b v → HasRoom (disks_of result).moments → IsEarlier H.past disks (disks_of result) }
    ensures sound { (b : Bytes4) (v : Stand) → Stands H.held H.past disks live.second live.journal b v → HasRoom (disks_of result).moments → AreSound H.held H.past (disks_of result) }
    ensures rest { (b : Bytes4) (v : Stand) → Stands H.held H.past disks live.second live.journal b v → HasRoom (disks_of result).moments
        → IfOk result (λ x. (c : Bytes4) × Stands H.held H.past x.0.disks x.0.second x.0.journal c (with_more (record_.Boot (next_boot live.replay.boot) ∷ []) v)) }
    ensures kept { IfOk result (λ x. IsKept x.1 (booted (found_of live))) }
    ensures range { IfOk result (λ x. IsInRange x.1) }
    ensures ready { IfOk result (λ x. IsReady x.0.second (H.held x.0.disks.j0) (H.held x.0.disks.j1) x.0.journal) }
    ensures node { IfOk result (λ x. x.0.journal.head.node ≡ live.journal.head.node) }
    ensures only { (f : HomeFail) → fail_of result ≡ Some f → IsOfStart f }
    ensures full { (slot len : ℕ) → fail_of result ≡ Some (home_fail.Full slot len) → 2 ^ 40 < len }
    ensures fault { fail_of result ≡ Some home_fail.DiskFault → Rose (home_faults H.faults disks) (home_faults H.faults (disks_of result)) }
    ensures moment { disks.moments ≤ (disks_of result).moments }
{
    let boot = next_boot(live.replay.boot());
    match boot_record(alloc, boot) {
        Ok(records) => {
            let opened = start_with(alloc, disks, live, boot, &records);
            drop(records);
            opened
        }
        Err(_) => {
            drop(live);
            Err((HomeFail::NoMemory, disks))
        }
    }
}

// The same with its record.
fn start_with<H: Disk>(
    alloc: Global,
    disks: Four<H>,
    live: Live,
    boot: u64,
    records: &Records,
) -> Result<(Home<H>, Kept0), (HomeFail, Four<H>)>
    requires ready { IsReady live.second (H.held disks.j0) (H.held disks.j1) live.journal }
    requires boot { boot ≡ next_boot live.replay.boot }
    requires limit { boot ≤ 2 ^ 62 }
    requires records { records.now ≡ record_.Boot boot ∷ [] }
    ensures crash { (b : Bytes4) (v : Stand) → Stands H.held H.past disks live.second live.journal b v → HasRoom (disks_of result).moments
        → StandsForEither live.journal.head.node H.past disks.moments (disks_of result) v (with_more records.now v) }
    ensures earlier { (b : Bytes4) (v : Stand) → Stands H.held H.past disks live.second live.journal b v → HasRoom (disks_of result).moments → IsEarlier H.past disks (disks_of result) }
    ensures sound { (b : Bytes4) (v : Stand) → Stands H.held H.past disks live.second live.journal b v → HasRoom (disks_of result).moments → AreSound H.held H.past (disks_of result) }
    ensures rest { (b : Bytes4) (v : Stand) → Stands H.held H.past disks live.second live.journal b v → HasRoom (disks_of result).moments
        → IfOk result (λ x. (c : Bytes4) × Stands H.held H.past x.0.disks x.0.second x.0.journal c (with_more records.now v)) }
    ensures kept { IfOk result (λ x. IsKept x.1 (booted (found_of live))) }
    ensures range { IfOk result (λ x. IsInRange x.1) }
    ensures ready { IfOk result (λ x. IsReady x.0.second (H.held x.0.disks.j0) (H.held x.0.disks.j1) x.0.journal) }
    ensures node { IfOk result (λ x. x.0.journal.head.node ≡ live.journal.head.node) }
    ensures only { (f : HomeFail) → fail_of result ≡ Some f → IsOfStart f }
    ensures full { (slot len : ℕ) → fail_of result ≡ Some (home_fail.Full slot len) → 2 ^ 40 < len }
    ensures fault { fail_of result ≡ Some home_fail.DiskFault → Rose (home_faults H.faults disks) (home_faults H.faults (disks_of result)) }
    ensures moment { disks.moments ≤ (disks_of result).moments }
{
    let kept = Kept0 {
        term: live.replay.term(),
        vote: live.replay.vote(),
        boot,
        image: live.image,
        rest: live.replay.into_entries(),
    };
    let mut home = Home {
        alloc,
        disks,
        second: live.second,
        journal: live.journal,
    };
    match home.append_records(records) {
        Ok(()) => Ok((home, kept)),
        Err(fail) => {
            drop(kept);
            Err((fail, home.close()))
        }
    }
}

// Makes the first slot of a blank home.
fn start_blank<H: Disk>(
    alloc: Global,
    disks: Four<H>,
    node: u8,
) -> Result<(Home<H>, Kept0), (HomeFail, Four<H>)>
    ensures crash { (b : Bytes4) → IsAtRest H.held H.past disks b → choice b.j0 b.j1 ≡ None → HasRoom (disks_of result).moments
        → (n : ℕ) (c : Bytes4) → disks.moments < n → HomeLeft H.past (disks_of result) n c → (stands node c ≡ None) ⊎ (stands node c ≡ Some (Ok (made (first_head node) [] first_records))) }
    ensures earlier { (b : Bytes4) → IsAtRest H.held H.past disks b → choice b.j0 b.j1 ≡ None → HasRoom (disks_of result).moments → IsEarlier H.past disks (disks_of result) }
    ensures sound { (b : Bytes4) → IsAtRest H.held H.past disks b → choice b.j0 b.j1 ≡ None → HasRoom (disks_of result).moments → AreSound H.held H.past (disks_of result) }
    ensures rest { (b : Bytes4) → IsAtRest H.held H.past disks b → choice b.j0 b.j1 ≡ None → HasRoom (disks_of result).moments
        → IfOk result (λ x. (c : Bytes4) × Stands H.held H.past x.0.disks x.0.second x.0.journal c (made (first_head node) [] first_records)) }
    ensures kept { IfOk result (λ x. IsKept x.1 (booted blank_found)) }
    ensures range { IfOk result (λ x. IsInRange x.1) }
    ensures ready { IfOk result (λ x. IsReady x.0.second (H.held x.0.disks.j0) (H.held x.0.disks.j1) x.0.journal) }
    ensures node { IfOk result (λ x. x.0.journal.head.node ≡ node) }
    ensures only { (f : HomeFail) → fail_of result ≡ Some f → IsOfFirst f }
    ensures fault { fail_of result ≡ Some home_fail.DiskFault → Rose (home_faults H.faults disks) (home_faults H.faults (disks_of result)) }
    ensures moment { disks.moments ≤ (disks_of result).moments }
{
    match first_records(alloc) {
        Ok(records) => {
            let opened = start_first(alloc, disks, first_head(node), &records);
            drop(records);
            opened
        }
        Err(_) => Err((HomeFail::NoMemory, disks)),
    }
}

// The same with its head and records.
fn start_first<H: Disk>(
    alloc: Global,
    disks: Four<H>,
    head: Head,
    records: &Records,
) -> Result<(Home<H>, Kept0), (HomeFail, Four<H>)>
    requires no_base { has_base records.now ≡ false }
    requires fits { IsHead head }
    requires no_image { head.image_len ≡ 0 }
    ensures crash { (b : Bytes4) → IsAtRest H.held H.past disks b → choice b.j0 b.j1 ≡ None → HasRoom (disks_of result).moments
        → (n : ℕ) (c : Bytes4) → disks.moments < n → HomeLeft H.past (disks_of result) n c → (stands head.node c ≡ None) ⊎ (stands head.node c ≡ Some (Ok (made head [] records.now))) }
    ensures earlier { (b : Bytes4) → IsAtRest H.held H.past disks b → choice b.j0 b.j1 ≡ None → HasRoom (disks_of result).moments → IsEarlier H.past disks (disks_of result) }
    ensures sound { (b : Bytes4) → IsAtRest H.held H.past disks b → choice b.j0 b.j1 ≡ None → HasRoom (disks_of result).moments → AreSound H.held H.past (disks_of result) }
    ensures rest { (b : Bytes4) → IsAtRest H.held H.past disks b → choice b.j0 b.j1 ≡ None → HasRoom (disks_of result).moments
        → IfOk result (λ x. (c : Bytes4) × Stands H.held H.past x.0.disks x.0.second x.0.journal c (made head [] records.now)) }
    ensures kept { IfOk result (λ x. IsKept x.1 (booted blank_found)) }
    ensures range { IfOk result (λ x. IsInRange x.1) }
    ensures ready { IfOk result (λ x. IsReady x.0.second (H.held x.0.disks.j0) (H.held x.0.disks.j1) x.0.journal) }
    ensures node { IfOk result (λ x. x.0.journal.head.node ≡ head.node) }
    ensures only { (f : HomeFail) → fail_of result ≡ Some f → IsOfFirst f }
    ensures fault { fail_of result ≡ Some home_fail.DiskFault → Rose (home_faults H.faults disks) (home_faults H.faults (disks_of result)) }
    ensures moment { disks.moments ≤ (disks_of result).moments }
{
    let mut disks = disks;
    match write_first(&mut disks, head, records) {
        Ok(()) => {
            let journal = Journal::fresh(alloc, head, records.bytes().len() as u32);
            let home = Home {
                alloc,
                disks,
                second: false,
                journal,
            };
            Ok((home, first_kept(alloc)))
        }
        Err(_) => Err((HomeFail::DiskFault, disks)),
    }
}

// What a server starts with that was never started.
fn first_kept(alloc: Global) -> Kept0
    ensures kept { IsKept result (booted blank_found) }
    ensures range { IsInRange result }
{
    Kept0 {
        term: 0,
        vote: 0,
        boot: 1,
        image: None,
        rest: Vec::new(alloc),
    }
}

impl<H: Disk> Home<H> {
    /// Opens the home of this node: syncs its disks, finds its live slot, reads it, and keeps one start more. A home without
    /// a live slot is blank, and its first slot is made.
    ///
    /// The server starts with what the records of the live slot leave behind its image, with the number of this start.
    /// A refusal hands the disks back. `Damaged` comes only where the live slot is outside the format, and tells the slot
    /// and the place of the first breach; `DiskFault` only where the home's count of faults rose; `Full` only where the
    /// journal would be longer than 2^40 bytes. A crash at any moment since the call began, within a write too, leaves what
    /// one just before it could leave, or a home on which opening finds what it found here, or that with this start.
    pub fn open(
        alloc: Global,
        disks: Four<H>,
        node: u8,
    ) -> Result<(Home<H>, Kept0), (HomeFail, Four<H>)>
        ensures found { (b : Bytes4) → Holds H.held disks b → Opens result (found node b) }
        ensures crash { (b : Bytes4) → AreTold H.held H.past disks b → HasRoom (disks_of result).moments → (n : ℕ) (c : Bytes4) → disks.moments < n → HomeLeft H.past (disks_of result) n c
            → LeftNow H.past disks c ⊎ IsBootedOrNot (found node b) (found node c) }
        ensures left { (b : Bytes4) → AreTold H.held H.past disks b → LeftNow H.past disks b → HasRoom (disks_of result).moments → (c : Bytes4) → Holds H.held (disks_of result) c
            → AreTold H.held H.past (disks_of result) c × LeftNow H.past (disks_of result) c × (LeftNow H.past disks c ⊎ IsBootedOrNot (found node b) (found node c)) }
        ensures keeps { (b : Bytes4) → AreTold H.held H.past disks b → HasRoom (disks_of result).moments → IfOk result (λ x. (f : Found) × (found node b ≡ Ok f) × Keeps H.held H.past x.0.disks x.0.second x.0.journal (booted f)) }
        ensures ready { IfOk result (λ x. IsReady x.0.second (H.held x.0.disks.j0) (H.held x.0.disks.j1) x.0.journal) }
        ensures node { IfOk result (λ x. x.0.journal.head.node ≡ node) }
        ensures room { IfOk result (λ x. IsWithin x.1.image x.1.rest.items) }
        ensures range { IfOk result (λ x. IsInRange x.1) }
        ensures full { (slot len : ℕ) → fail_of result ≡ Some (home_fail.Full slot len) → 2 ^ 40 < len }
        ensures fault { fail_of result ≡ Some home_fail.DiskFault → Rose (home_faults H.faults disks) (home_faults H.faults (disks_of result)) }
        ensures moment { disks.moments ≤ (disks_of result).moments }
    {
        let mut disks = disks;
        match begin(alloc, &mut disks, node) {
            Ok(Some(live)) => start_live(alloc, disks, live),
            Ok(None) => start_blank(alloc, disks, node),
            Err(fail) => Err((fail, disks)),
        }
    }

    /// The disks of the home. Takes no memory.
    pub fn close(self) -> Four<H>
        ensures { result ≡ self.disks }
    {
        let Home { disks, journal, .. } = self;
        drop(journal);
        disks
    }
}
