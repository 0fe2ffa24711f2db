//! An image that a leader sends takes the place of the own state.

ghost use Rattle.std.specs.Prelude.{◌≡◌, ℕ, ◌+◌, ◌-◌, ◌^◌, ◌<◌, ◌≤◌, ◌++◌, ◌∷◌, ◌&&◌, true, [], length, Some, None, IfOk, OnOk, OnErr, IsTrue, IsOk};
ghost use Rattle.std.specs.Option.{option_map};
ghost use Rattle.kp_snapshot.specs.Snapshots.{Snapshot};
ghost use Rattle.kp_entry.specs.Log.{behind, entry_at, has_index, kept_behind};
ghost use Rattle.kp_raft.specs.Members.{Steps};
ghost use Rattle.kp_step.specs.Asking.{is_whole};
ghost use Rattle.kp_node.specs.Appending.{Agrees};
ghost use Rattle.kp_node.specs.Steps.{images};
ghost use Rattle.kp_node.specs.Installing.{IsMade, IsMadeIf, Installs, sent, stored, mail_of, reaction_to, image_by, store_in, heard_in, is_taken as taken_so};

use crate::deadlines::all_heard;
use kp_entry::decode;
use kp_expiry::Expiry;
use kp_model::{Entry, NoMemory};
use kp_raft::{Mail, Raft, RaftEvent, RaftOut};
use kp_snapshot::Image;
use kp_storage::Storage;
use std::alloc::Global;

// The greatest term and index.
const MAX: u64 = 4611686018427387904;

// What takes the place of a node's own where an image is taken.
#[derive(Drop)]
struct Made {
    storage: Storage,
    expiry: Expiry,
}

/// An image that a leader sends.
#[derive(Drop)]
pub(crate) struct Sending {
    /// The leader's term.
    pub(crate) term: u64,
    /// The leader.
    pub(crate) from: u8,
    /// The index and the term of the last entry that the image stands for.
    pub(crate) index: u64,
    pub(crate) index_term: u64,
    pub(crate) image: Image,
}

/// Raft takes the message, and where it takes the image, the storage and the deadlines become the image's. After an error
/// nothing has changed.
pub(crate) fn install(
    alloc: Global,
    raft: &mut Raft<Image>,
    storage: &mut Storage,
    expiry: &mut Expiry,
    now: u64,
    sending: Sending,
) -> Result<RaftOut<Image>, NoMemory>
    requires agrees { Agrees raft.old storage.old }
    requires whole { is_whole images sending.index sending.index_term sending.image ≡ true }
    ensures ok { IfOk result (λ out. Installs now (mail_of sending) raft.old storage.old expiry.old out raft.new storage.new expiry.new) }
    ensures err { OnErr result ((raft.new ≡ raft.old) × (storage.new ≡ storage.old) × (expiry.new ≡ expiry.old)) }
{
    match make_if(alloc, raft, &sending, now) {
        Ok(made) => step_with(raft, storage, expiry, sending, made),
        Err(none) => {
            drop(sending);
            Err(none)
        }
    }
}

// Makes what takes the place of the node's own, where Raft takes the image.
fn make_if(
    alloc: Global,
    raft: &Raft<Image>,
    sending: &Sending,
    now: u64,
) -> Result<Option<Made>, NoMemory>
    ensures { IfOk result (λ made. IsMadeIf now raft.now sending.now made) }
{
    if !is_taken(
        raft,
        sending.term,
        sending.from,
        sending.index,
        sending.index_term,
    ) {
        return Ok(None);
    }
    Ok(Some(make(alloc, raft, &sending.image, now)?))
}

// Raft takes the message, and what was made takes the place of the own.
fn step_with(
    raft: &mut Raft<Image>,
    storage: &mut Storage,
    expiry: &mut Expiry,
    sending: Sending,
    made: Option<Made>,
) -> Result<RaftOut<Image>, NoMemory>
    requires agrees { Agrees raft.old storage.old }
    requires whole { is_whole images sending.index sending.index_term sending.image ≡ true }
    ensures ok { (now : ℕ) → IsMadeIf now raft.old sending made → IfOk result (λ out. Installs now (mail_of sending) raft.old storage.old expiry.old out raft.new storage.new expiry.new) }
    ensures err { OnErr result ((raft.new ≡ raft.old) × (storage.new ≡ storage.old) × (expiry.new ≡ expiry.old)) }
{
    match raft.ready() {
        Ok(()) => {}
        Err(none) => {
            drop(sending);
            drop(made);
            return Err(none);
        }
    }
    match step_ready(raft, sending) {
        Ok(out) => {
            put(storage, expiry, made);
            Ok(out)
        }
        Err(none) => {
            drop(made);
            Err(none)
        }
    }
}

// Raft takes the message, for which it has room.
fn step_ready(raft: &mut Raft<Image>, sending: Sending) -> Result<RaftOut<Image>, NoMemory>
    requires ready { IsTrue raft.old.ready }
    ensures ok { IfOk result (λ out. Steps raft.old (reaction_to raft.old (mail_of sending)) out raft.new) }
    ensures image { IfOk result (λ out. out.image ≡ image_by raft.old (mail_of sending)) }
    ensures sure { IsOk result }
{
    let Sending {
        term,
        from,
        index,
        index_term,
        image,
    } = sending;
    raft.step(RaftEvent::Deliver(Mail::Install {
        term,
        from,
        index,
        index_term,
        image,
    }))
}

// What was made takes the place of the own.
fn put(storage: &mut Storage, expiry: &mut Expiry, made: Option<Made>)
    ensures storage { storage.new ≡ store_in made storage.old }
    ensures expiry { expiry.new ≡ heard_in made expiry.old }
{
    match made {
        None => {}
        Some(made) => {
            let Made {
                storage: other,
                expiry: heard,
            } = made;
            *storage = other;
            *expiry = heard;
        }
    }
}

// Whether Raft takes an image of this index that this member sends.
fn is_taken(raft: &Raft<Image>, term: u64, from: u8, index: u64, index_term: u64) -> bool
    ensures { (image : Snapshot) → result ≡ taken_so raft.now (sent term from index index_term image) term index }
{
    raft.match_of(from).is_some()
        && term <= MAX
        && index <= MAX
        && index_term <= MAX
        && raft.term() <= term
        && raft.commit() < index
}

// Makes the storage of the image with the entries that stay behind it, and all of its sessions as heard at this time, in
// milliseconds.
fn make(alloc: Global, raft: &Raft<Image>, image: &Image, now: u64) -> Result<Made, NoMemory>
    ensures { IfOk result (λ m. IsMade raft.now.held.log now image.now m.storage m.expiry) }
{
    let storage = storage_of(alloc, raft, image)?;
    match all_heard(alloc, &storage.committed(), now) {
        Ok(expiry) => Ok(Made { storage, expiry }),
        Err(none) => {
            drop(storage);
            Err(none)
        }
    }
}

// The storage of the image with the entries that stay behind it.
fn storage_of(alloc: Global, raft: &Raft<Image>, image: &Image) -> Result<Storage, NoMemory>
    ensures { IfOk result (λ s. s ≡ stored raft.now.held.log image.now) }
{
    image.stays_sound();
    let rest = tail_of(alloc, raft, image.index(), image.term())?;
    let filled = filled_storage(alloc, image, rest.as_slice());
    drop(rest);
    filled
}

// The storage of the image with these entries behind it.
fn filled_storage(alloc: Global, image: &Image, rest: &[Entry]) -> Result<Storage, NoMemory>
    requires { image.now.state.applied + length rest.now ≤ 2 ^ 62 }
    ensures { IfOk result (λ s. s ≡ record { state = image.now.state; unapplied = rest.now }) }
{
    let mut storage = Storage::new(alloc)?;
    match storage.adopt(image, rest) {
        Ok(()) => Ok(storage),
        Err(none) => {
            drop(storage);
            Err(none)
        }
    }
}

// The entries of the log that stay behind an image of this index and this term.
fn tail_of(alloc: Global, raft: &Raft<Image>, index: u64, term: u64) -> Result<Vec<Entry>, NoMemory>
    requires { index ≤ 2 ^ 62 }
    ensures entries { IfOk result (λ list. list.items ≡ kept_behind raft.now.held.log index term) }
    ensures few { IfOk result (λ list. index + length list.items ≤ 2 ^ 62) }
{
    match raft.term_at(index) {
        Some(own) if own == term => entries_behind(alloc, raft, index),
        _ => Ok(Vec::new(alloc)),
    }
}

// The entries of the log behind this index.
fn entries_behind(alloc: Global, raft: &Raft<Image>, index: u64) -> Result<Vec<Entry>, NoMemory>
    requires { has_index raft.now.held.log index ≡ true }
    ensures entries { IfOk result (λ list. list.items ≡ behind raft.now.held.log index) }
    ensures few { IfOk result (λ list. index + length list.items ≤ 2 ^ 62) }
{
    let mut list = Vec::new(alloc);
    match copy_behind(alloc, raft, index, &mut list) {
        Ok(()) => Ok(list),
        Err(none) => {
            drop(list);
            Err(none)
        }
    }
}

// Puts the entries of the log behind this index into an empty list. Without memory some of them are there.
fn copy_behind(
    alloc: Global,
    raft: &Raft<Image>,
    index: u64,
    list: &mut Vec<Entry>,
) -> Result<(), NoMemory>
    requires there { has_index raft.now.held.log index ≡ true }
    requires none { list.old.items ≡ [] }
    ensures entries { OnOk result (list.new.items ≡ behind raft.now.held.log index) }
    ensures few { OnOk result (index + length list.new.items ≤ 2 ^ 62) }
{
    for place in index..raft.last() {
        push_entry(alloc, raft, place + 1, list)?;
    }
    Ok(())
}

// Puts the entry of this index behind the others.
fn push_entry(
    alloc: Global,
    raft: &Raft<Image>,
    index: u64,
    list: &mut Vec<Entry>,
) -> Result<(), NoMemory>
    ensures { OnOk result (Some list.new.items ≡ option_map (λ e. list.old.items ++ e ∷ []) (entry_at raft.now.held.log index)) }
{
    list.push(entry_of(alloc, raft, index)?)?;
    Ok(())
}

// The entry of this index.
pub(crate) fn entry_of(alloc: Global, raft: &Raft<Image>, index: u64) -> Result<Entry, NoMemory>
    ensures { IfOk result (λ e. Some e ≡ entry_at raft.now.held.log index) }
{
    match raft.bytes_at(index) {
        None => Err(NoMemory),
        Some(bytes) => match decode(alloc, bytes) {
            Ok((entry, _)) => Ok(entry),
            Err(_) => Err(NoMemory),
        },
    }
}
