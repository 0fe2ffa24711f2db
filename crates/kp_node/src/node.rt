//! A node: its parts, and what it tells of itself.

ghost use Rattle.std.specs.Prelude.{◌≡◌, ◌^◌, ◌≤◌};
ghost use Rattle.kp_entry.specs.Log.{last_index};
ghost use Rattle.kp_step.specs.Node.{last, unapplied};
ghost use Rattle.kp_step.specs.Step.{standing_of};
ghost use Rattle.kp_node.specs.Parts.{node_of};
ghost use Rattle.kp_node.specs.Steps.{quietly, given_behind};

use crate::outcome::Outcome;
use crate::spoken::Spoken;
use kp_entry::Records;
use kp_event::{Said, Standing};
use kp_expiry::Expiry;
use kp_model::{Items, Role};
use kp_raft::{Raft, RaftOut};
use kp_seats::Seats;
use kp_snapshot::Image;
use kp_step::Seat;
use kp_storage::Storage;
use kp_watch::Watches;
use std::alloc::Global;
use std::marker::Model;

/// A node of a cluster. Contracts see what each of its parts stands for; together these are a node of the definition of
/// the step.
#[derive(Drop)]
pub struct Node {
    pub(crate) alloc: Global,
    pub(crate) raft: Raft<Image>,
    // the committed state, and the entries of the log behind it
    pub(crate) storage: Storage,
    pub(crate) seats: Seats<Seat>,
    pub(crate) watches: Watches,
    pub(crate) expiry: Expiry,
    // the sessions that were heard since the leader was told of some
    pub(crate) spoken: Spoken,
    // how often the node was started
    pub(crate) boot: u64,
    // how many events it has taken
    pub(crate) events: u64,
}

impl Model for Node {
    ghost use Rattle.kp_node.specs.Parts.{Parts, parts_code, parts};
    ghost use Rattle.kp_node.specs.Holding.{Holds};

    ghost Value = { Parts };

    ghost coded = { parts_code };

    ghost view = { λ n. parts n.raft n.storage n.seats n.watches n.expiry n.spoken n.boot n.events };

    ghost invariant = { λ n. Holds (parts n.raft n.storage n.seats n.watches n.expiry n.spoken n.boot n.events) };
}

impl Node {
    /// The storage: the committed state, and the entries that aren't applied yet.
    pub fn storage(&self) -> &Storage
        ensures store { result.now ≡ self.now.store }
        ensures unapplied { result.now.unapplied ≡ unapplied (node_of self.now) }
    {
        &self.storage
    }

    /// What the node is in its cluster.
    pub fn role(&self) -> Role
        ensures { result ≡ (node_of self.now).running.role }
    {
        self.raft.role()
    }

    /// Its term.
    pub fn term(&self) -> u64
        ensures term { result ≡ (node_of self.now).held.term }
        ensures range { result ≤ 2 ^ 62 }
    {
        self.raft.term()
    }

    /// The index of the last entry of its log.
    pub fn last(&self) -> u64
        ensures index { result ≡ last (node_of self.now) }
        ensures range { result ≤ 2 ^ 62 }
    {
        self.raft.last()
    }

    /// The index up to which entries are known to be committed.
    pub fn commit(&self) -> u64
        ensures { result ≡ (node_of self.now).running.commit }
    {
        self.raft.commit()
    }

    /// How often it was started.
    pub fn boot(&self) -> u64
        ensures { result ≡ (node_of self.now).boot }
    {
        self.boot
    }

    /// How many events it has taken.
    pub fn events(&self) -> u64
        ensures events { result ≡ self.now.events }
        ensures range { result ≤ 2 ^ 62 }
    {
        self.events
    }

    // Where its memory comes from.
    pub(crate) fn allocator(&self) -> Global {
        self.alloc
    }

    // Where it stands.
    pub(crate) fn standing(&self) -> Standing
        ensures { result ≡ standing_of (node_of self.now) }
    {
        Standing {
            leader: matches!(self.raft.role(), Role::Leader),
            last: self.raft.last(),
            commit: self.raft.commit(),
        }
    }

    // What is given where nothing is kept or sent, and no connection is given up or has something ready.
    pub(crate) fn quiet(&self, said: Said) -> Outcome
        ensures { result ≡ quietly said (standing_of (node_of self.now)) }
    {
        Outcome {
            said,
            records: Records::new(self.alloc),
            image: None,
            mail: Items::new(self.alloc),
            cut: None,
            lost: 0,
            standing: self.standing(),
            ready: Items::new(self.alloc),
        }
    }

    // What is given behind what Raft gave, where no connection changed.
    pub(crate) fn behind(&self, said: Said, out: RaftOut<Image>, image: Option<Image>) -> Outcome
        ensures { result ≡ given_behind said out image (standing_of (node_of self.now)) }
    {
        let RaftOut {
            image: installed,
            records,
            mail,
            ..
        } = out;
        drop(installed);
        Outcome {
            said,
            records,
            image,
            mail,
            cut: None,
            lost: 0,
            standing: self.standing(),
            ready: Items::new(self.alloc),
        }
    }
}
