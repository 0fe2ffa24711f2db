//! A node is started with what its home kept.

ghost use Rattle.std.specs.Prelude.{◌≡◌, ◌+◌, ◌++◌, ◌^◌, ◌≤◌, [], length, None, IfOk, IsTrue, OnOk};
ghost use Rattle.kp_model.specs.Store.{empty, last as last_of};
ghost use Rattle.kp_raft.specs.Members.{Begins, is_cluster};
ghost use Rattle.kp_step.specs.Step.{all_heard as heard_of_all};
ghost use Rattle.kp_node.specs.Starting.{state_in, base_in, held_in, Starts};

use crate::deadlines::all_heard;
use crate::node::Node;
use crate::spoken::Spoken;
use kp_expiry::Expiry;
use kp_model::{Entry, Items, NoMemory};
use kp_raft::Raft;
use kp_seats::Seats;
use kp_snapshot::Image;
use kp_storage::Storage;
use kp_watch::Watches;
use std::alloc::Global;

/// What a node kept over a stop.
#[derive(Drop)]
pub struct Stored {
    /// How often it was started, this start among them.
    pub boot: u64,

    /// Its term, and for whom it voted in it, or 0.
    pub term: u64,
    pub vote: u8,

    /// The image that its log begins behind, or None where it begins behind index 0.
    pub image: Option<Image>,

    /// The entries of its log.
    pub entries: Items<Entry>,
}

impl Node {
    /// The node of this number of a cluster of 1, 3, 5 or 7 nodes, with what it kept, at this time, in milliseconds. Each
    /// session of the image was heard at that time. It has no connections.
    pub fn start(
        alloc: Global,
        node: u8,
        members: u8,
        now: u64,
        stored: &Stored,
    ) -> Result<Node, NoMemory>
        requires members { IsTrue (is_cluster members) }
        requires node { (1 ≤ node) × (node ≤ members) }
        requires vote { stored.now.vote ≤ 7 }
        requires term { stored.now.term ≤ 2 ^ 62 }
        requires last { (state_in stored.now.image).applied + length stored.now.entries ≤ 2 ^ 62 }
        ensures { IfOk result (λ n. Starts node members now stored.now n) }
    {
        let storage = storage_of(alloc, stored)?;
        match parts_of(alloc, node, members, now, stored, &storage) {
            Err(none) => {
                drop(storage);
                Err(none)
            }
            Ok((raft, expiry)) => Ok(Node {
                alloc,
                raft,
                storage,
                seats: Seats::new(alloc),
                watches: Watches::new(alloc),
                expiry,
                spoken: Spoken::new(alloc),
                boot: stored.boot,
                events: 0,
            }),
        }
    }

    /// The node of this number of a cluster of 1, 3, 5 or 7 nodes, which kept nothing, at its first start.
    #[tactic(auto, unfolding(kp_model::specs::State::empty))]
    pub fn blank(alloc: Global, node: u8, members: u8) -> Result<Node, NoMemory>
        requires members { IsTrue (is_cluster members) }
        requires node { (1 ≤ node) × (node ≤ members) }
        ensures { IfOk result (λ n. Starts node members 0 (record { boot = 1; term = 0; vote = 0; image = None; entries = [] }) n) }
    {
        let stored = Stored {
            boot: 1,
            term: 0,
            vote: 0,
            image: None,
            entries: Items::new(alloc),
        };
        let started = Node::start(alloc, node, members, 0, &stored);
        drop(stored);
        started
    }
}

// The member of Raft, and when each session was heard.
fn parts_of(
    alloc: Global,
    node: u8,
    members: u8,
    now: u64,
    stored: &Stored,
    storage: &Storage,
) -> Result<(Raft<Image>, Expiry), NoMemory>
    requires members { IsTrue (is_cluster members) }
    requires node { (1 ≤ node) × (node ≤ members) }
    requires vote { stored.now.vote ≤ 7 }
    requires term { stored.now.term ≤ 2 ^ 62 }
    requires last { (state_in stored.now.image).applied + length stored.now.entries ≤ 2 ^ 62 }
    ensures raft { IfOk result (λ r. Begins r.0 node members (held_in stored.now)) }
    ensures heard { IfOk result (λ r. r.1 ≡ heard_of_all now storage.now.state.sessions) }
{
    let expiry = all_heard(alloc, &storage.committed(), now)?;
    match raft_of(alloc, node, members, stored) {
        Ok(raft) => Ok((raft, expiry)),
        Err(none) => {
            drop(expiry);
            Err(none)
        }
    }
}

// The member of Raft with what was kept.
fn raft_of(alloc: Global, node: u8, members: u8, stored: &Stored) -> Result<Raft<Image>, NoMemory>
    requires members { IsTrue (is_cluster members) }
    requires node { (1 ≤ node) × (node ≤ members) }
    requires vote { stored.now.vote ≤ 7 }
    requires term { stored.now.term ≤ 2 ^ 62 }
    requires last { (state_in stored.now.image).applied + length stored.now.entries ≤ 2 ^ 62 }
    ensures { IfOk result (λ r. Begins r node members (held_in stored.now)) }
{
    let base = base_of(&stored.image);
    Raft::new(
        alloc,
        node,
        members,
        stored.term,
        stored.vote,
        base,
        stored.entries.as_slice(),
    )
}

// The index and the term of the image's last entry.
#[tactic(auto, unfolding(kp_model::specs::State::empty))]
fn base_of(image: &Option<Image>) -> (u64, u64)
    ensures base { result ≡ base_in image.now }
    ensures range { (result.0 ≤ 2 ^ 62) × (result.1 ≤ 2 ^ 62) }
{
    match image {
        None => (0, 0),
        Some(image) => {
            image.stays_sound();
            (image.index(), image.term())
        }
    }
}

// The storage of the image's state with the entries behind it.
fn storage_of(alloc: Global, stored: &Stored) -> Result<Storage, NoMemory>
    requires { (state_in stored.now.image).applied + length stored.now.entries ≤ 2 ^ 62 }
    ensures { IfOk result (λ x. x ≡ record { state = state_in stored.now.image; unapplied = stored.now.entries }) }
{
    let mut storage = Storage::new(alloc)?;
    match fill(&mut storage, stored) {
        Ok(()) => Ok(storage),
        Err(none) => {
            drop(storage);
            Err(none)
        }
    }
}

// Fills a blank storage.
fn fill(storage: &mut Storage, stored: &Stored) -> Result<(), NoMemory>
    requires blank { storage.old ≡ empty }
    requires last { (state_in stored.now.image).applied + length stored.now.entries ≤ 2 ^ 62 }
    ensures { OnOk result (storage.new ≡ record { state = state_in stored.now.image; unapplied = stored.now.entries }) }
{
    match &stored.image {
        Some(image) => storage.adopt(image, stored.entries.as_slice()),
        None => add_all(storage, stored.entries.as_slice()),
    }
}

// Adds the entries behind the last one. Without memory some of them are added.
fn add_all(storage: &mut Storage, entries: &[Entry]) -> Result<(), NoMemory>
    requires { last_of storage.old + length entries.now ≤ 2 ^ 62 }
    ensures { OnOk result (storage.new ≡ record storage.old { unapplied = storage.old.unapplied ++ entries.now }) }
{
    for entry in entries {
        storage.preprocess(entry)?;
    }
    Ok(())
}
