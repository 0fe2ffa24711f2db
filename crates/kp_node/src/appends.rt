//! An append: Raft and the storage take equally many of its entries.

ghost use Rattle.std.specs.Prelude.{◌≡◌, ◌+◌, ◌-◌, ◌^◌, ◌<◌, ◌≤◌, true, false, length, take, drop, slice_get, Option, Some, None, IfOk, IfSome, IsOk, IsTrue, OnErr, OnOk};
ghost use Rattle.std.specs.Option.{option_map};
ghost use Rattle.kp_model.specs.Store.{Store, last as last_of, with_entry};
ghost use Rattle.kp_storage.specs.Kept.{with_all};
ghost use Rattle.kp_step.specs.Asking.{is_taken as taken_kind};
ghost use Rattle.kp_node.specs.Appending.{Agrees, Appends, IsGiven, cut_back, weighs};

use kp_entry::Entries;
use kp_model::NoMemory;
use kp_raft::{AppendMail, Raft, RaftOut, Weigh};
use kp_snapshot::Image;
use kp_storage::Storage;
use std::alloc::Global;

/// Raft and the storage take equally many entries of an append, as many as find memory, and it is told how many. Only room
/// for a step without entries must be found; without it nothing has changed.
pub(crate) fn append(
    alloc: Global,
    raft: &mut Raft<Image>,
    storage: &mut Storage,
    mail: &AppendMail,
) -> Result<(RaftOut<Image>, u32), NoMemory>
    requires { Agrees raft.old storage.old }
    ensures ok { IfOk result (λ r. Appends mail.now raft.old storage.old r.0 r.1 raft.new storage.new) }
    ensures err { OnErr result ((raft.new ≡ raft.old) × (storage.new ≡ storage.old)) }
{
    let _commit = raft.commit();
    let _last = raft.last();
    raft.ready()?;
    let weighed = raft.weigh(mail);
    if !is_taken(weighed.kind) {
        return take_none(raft, storage, mail);
    }
    take_back(storage, weighed.keep);
    let taken = add_some(alloc, storage, &mail.entries, weighed.matched);
    take_added(raft, storage, mail, weighed.matched, taken)
}

// Whether Raft takes the append.
fn is_taken(kind: Weigh) -> bool
    ensures { result ≡ taken_kind kind }
{
    match kind {
        Weigh::Taken => true,
        Weigh::Refused | Weigh::Dropped => false,
    }
}

// Forgets what stands behind an index, where one is given.
fn take_back(storage: &mut Storage, keep: Option<u64>)
    requires { IfSome keep (λ k. (storage.old.state.applied ≤ k) × (k ≤ last_of storage.old)) }
    ensures { storage.new ≡ cut_back storage.old keep }
{
    match keep {
        None => {}
        Some(last) => storage.truncate(last),
    }
}

// Adds the entries from this place on, up to the first that finds no memory, and tells that one's place.
fn add_some(alloc: Global, storage: &mut Storage, entries: &Entries, from: u32) -> u32
    requires from { from ≤ length entries.now }
    requires room { last_of storage.old + (length entries.now - from) ≤ 2 ^ 62 }
    ensures from { from ≤ result }
    ensures to { result ≤ length entries.now }
    ensures store { storage.new ≡ with_all storage.old (drop from (take result entries.now)) }
{
    let len = entries.len() as u32;
    for place in from..len {
        match add_one(alloc, storage, entries, place) {
            Ok(()) => {}
            Err(_) => return place,
        }
    }
    len
}

// Adds the entry at this place.
fn add_one(
    alloc: Global,
    storage: &mut Storage,
    entries: &Entries,
    place: u32,
) -> Result<(), NoMemory>
    requires place { place < length entries.now }
    requires room { last_of storage.old < 2 ^ 62 }
    ensures ok { OnOk result (Some storage.new ≡ option_map (with_entry storage.old) (slice_get entries.now place)) }
    ensures err { OnErr result (storage.new ≡ storage.old) }
{
    match entries.get(alloc, place as usize)? {
        None => Err(NoMemory),
        Some(entry) => {
            let added = storage.preprocess(&entry);
            drop(entry);
            added
        }
    }
}

// Raft refuses the append, or drops it, for which it has room.
fn take_none(
    raft: &mut Raft<Image>,
    storage: &Storage,
    mail: &AppendMail,
) -> Result<(RaftOut<Image>, u32), NoMemory>
    requires agrees { Agrees raft.old storage.now }
    requires ready { IsTrue raft.old.ready }
    requires other { taken_kind (weighs raft.old mail.now).kind ≡ false }
    ensures ok { IfOk result (λ r. Appends mail.now raft.old storage.now r.0 r.1 raft.new storage.now) }
    ensures sure { IsOk result }
{
    let len = mail.entries.len() as u32;
    let out = raft.take_append(mail, len)?;
    Ok((out, len))
}

// Raft takes the entries that the storage has got, or, where it finds no memory for them, those that it has, for which it
// has room.
fn take_added(
    raft: &mut Raft<Image>,
    storage: &mut Storage,
    mail: &AppendMail,
    matched: u32,
    taken: u32,
) -> Result<(RaftOut<Image>, u32), NoMemory>
    requires ready { IsTrue raft.old.ready }
    requires kind { taken_kind (weighs raft.old mail.now).kind ≡ true }
    requires matched { (weighs raft.old mail.now).matched ≡ matched }
    requires some { matched ≤ taken }
    requires within { taken ≤ length mail.now.entries }
    requires added { taken - matched ≤ length storage.old.unapplied }
    ensures ok { (s : Store) → Agrees raft.old s → IsGiven s (weighs raft.old mail.now) taken mail.now storage.old → IfOk result (λ r. Appends mail.now raft.old s r.0 r.1 raft.new storage.new) }
    ensures sure { IsOk result }
{
    let _commit = raft.commit();
    match raft.take_append(mail, taken) {
        Ok(out) => Ok((out, taken)),
        Err(_) => {
            let last = storage.last() - (taken - matched) as u64;
            storage.truncate(last);
            let out = raft.take_append(mail, matched)?;
            Ok((out, matched))
        }
    }
}
