ghost use Rattle.std.specs.Prelude.{◌≡◌, ◌<◌, ◌^◌, ◌≤◌, ◌+◌, IsTrue, All, length, drop, Some, IfOk, OnOk, OnErr};
ghost use Rattle.std.specs.FinMap as map;
ghost use Rattle.std.specs.Option.{option_map};
ghost use Rattle.kp_model.specs.Good.{IsSound};
ghost use Rattle.kp_model.specs.Grammar.{IsEntry};
ghost use Rattle.kp_model.specs.State.{seen as seen_of};
ghost use Rattle.kp_model.specs.Step.{apply, Outcome};
ghost use Rattle.kp_model.specs.Store.{after, latest, last as last_of, empty, with_entry, kept as kept_of, outcome_in, truncated, commit_answer, commit_leaves};
ghost use Rattle.kp_plain.specs.Counted.{counts_of};

use crate::tree::Tree;
use kp_model::{Committed, Entry, NoMemory, Reply, Seen, Session, View};
use kp_prep::Prepared;
use std::alloc::Global;
use std::marker::Model;

/// The committed state, and the entries that aren't applied yet. The uncommitted state is the replay of
/// these entries on the committed state, and each question about it replays them.
///
/// No call but `new`, `preprocess`, `commit`, `kept`, `peek`, `see`, `who` and `counts` takes memory, and those of
/// `Fill` that pour a session or a node in. Where one of
/// these finds none, it answers `NoMemory`, and the store is as it was.
///
/// The calls that apply entries have the condition that the committed state is sound. That of a new
/// store is, and each call leaves it so; it is no part of the type, so that a state may be poured in
/// piece by piece.
#[derive(Drop)]
pub struct PlainStore {
    pub(crate) alloc: Global,
    pub(crate) state: Tree,
    unapplied: Vec<Entry>,
}

/// How many nodes and sessions a store has.
#[derive(Clone, Copy)]
pub struct Counts {
    /// Nodes of the committed state.
    pub nodes: u64,
    /// Sessions of the committed state.
    pub sessions: u64,
    /// Nodes of the uncommitted state.
    pub all_nodes: u64,
    /// Sessions of the uncommitted state.
    pub all_sessions: u64,
}

impl Model for PlainStore {
    ghost use Rattle.kp_model.specs.Store.{Store};
    ghost use Rattle.kp_model.specs.Codes.{store_code};
    ghost use Rattle.kp_plain.specs.Kept.{Keeps};

    ghost Value = { Store };

    ghost coded = { store_code };

    ghost view = { λ x. record { state = x.state; unapplied = x.unapplied.items } };

    ghost invariant = { λ x. Keeps x.state x.unapplied.items };
}

// The state behind one entry.
fn step(alloc: Global, tree: Tree, entry: &Entry) -> Result<Tree, NoMemory>
    requires room { tree.applied < 2 ^ 62 }
    requires sound { IsSound tree }
    ensures { IfOk result (λ t. t ≡ (apply tree entry.now).state) }
{
    let (tree, prepared) = tree.take(alloc, entry)?;
    drop(prepared);
    Ok(tree)
}

// The state behind some entries.
fn replayed(alloc: Global, state: &Tree, entries: &[Entry]) -> Result<Tree, NoMemory>
    requires room { state.now.applied + length entries.now ≤ 2 ^ 62 }
    requires taken { All IsEntry entries.now }
    requires sound { IsSound state.now }
    ensures { IfOk result (λ t. t ≡ after state.now entries.now) }
{
    let mut tree = state.copy(alloc)?;
    for entry in entries {
        tree = step(alloc, tree, entry)?;
    }
    Ok(tree)
}

// The reply of the entry at a place, on the state behind those before it.
fn kept_at(
    alloc: Global,
    state: &Tree,
    entries: &[Entry],
    place: u64,
) -> Result<Option<Reply>, NoMemory>
    requires room { state.now.applied + length entries.now ≤ 2 ^ 62 }
    requires taken { All IsEntry entries.now }
    requires sound { IsSound state.now }
    ensures { IfOk result (λ r. r ≡ option_map (λ (o : Outcome). o.reply) (outcome_in state.now entries.now place)) }
{
    if place >= entries.len() as u64 {
        return Ok(None);
    }
    let place = place as usize;
    let tree = replayed(alloc, state, &entries[..place])?;
    let (tree, prepared) = tree.take(alloc, &entries[place])?;
    drop(tree);
    let Prepared { reply, events } = prepared;
    drop(events);
    Ok(Some(reply))
}

// What the first of the entries is answered, and the state behind it.
fn first_applied(
    alloc: Global,
    state: &Tree,
    entries: &[Entry],
) -> Result<(Tree, Committed), NoMemory>
    requires some { 0 < length entries.now }
    requires room { state.now.applied < 2 ^ 62 }
    requires taken { All IsEntry entries.now }
    requires sound { IsSound state.now }
    ensures answer { IfOk result (λ x. Some x.1 ≡ commit_answer state.now entries.now) }
    ensures state { IfOk result (λ x. record { state = x.0; unapplied = drop 1 entries.now } ≡ commit_leaves state.now entries.now) }
    ensures applied { IfOk result (λ x. x.0.applied ≡ state.now.applied + 1) }
    ensures sound { IfOk result (λ x. IsSound x.0) }
{
    let tree = state.copy(alloc)?;
    let (tree, prepared) = tree.take(alloc, &entries[0])?;
    let Prepared { reply, events } = prepared;
    let index = tree.applied();
    Ok((
        tree,
        Committed {
            index,
            reply,
            events,
        },
    ))
}

impl PlainStore {
    /// The empty store, which takes its memory from this allocator.
    pub fn new(alloc: Global) -> Result<PlainStore, NoMemory>
        ensures value { IfOk result (λ x. x ≡ empty) }
        ensures sound { IfOk result (λ x. IsSound x.state) }
    {
        Ok(PlainStore {
            alloc,
            state: Tree::new(alloc)?,
            unapplied: Vec::new(alloc),
        })
    }

    /// The index of the last entry that is committed.
    pub fn applied(&self) -> u64
        ensures { result ≡ self.now.state.applied }
    {
        self.state.applied()
    }

    /// The index of the last entry.
    pub fn last(&self) -> u64
        ensures index { result ≡ last_of self.now }
        ensures limit { result ≤ 2 ^ 62 }
    {
        self.state.applied() + self.unapplied.len() as u64
    }

    /// Adds an entry behind the last one, as a copy.
    pub fn preprocess(&mut self, entry: &Entry) -> Result<(), NoMemory>
        requires room { last_of self.old < 2 ^ 62 }
        ensures ok { OnOk result (self.new ≡ with_entry self.old entry.now) }
        ensures err { OnErr result (self.new ≡ self.old) }
    {
        let entry = entry.copy(self.alloc)?;
        self.unapplied.push(entry)?;
        Ok(())
    }

    /// Applies the first unapplied entry to the committed state, and answers its index, its reply and its
    /// events. None exactly where there is no such entry.
    pub fn commit(&mut self) -> Result<Option<Committed>, NoMemory>
        requires sound { IsSound self.old.state }
        ensures answer { IfOk result (λ c. c ≡ commit_answer self.old.state self.old.unapplied) }
        ensures ok { OnOk result (self.new ≡ commit_leaves self.old.state self.old.unapplied) }
        ensures err { OnErr result (self.new ≡ self.old) }
        ensures sound { IsSound self.new.state }
    {
        if self.unapplied.is_empty() {
            return Ok(None);
        }
        let (state, committed) = first_applied(self.alloc, &self.state, self.unapplied.as_slice())?;
        self.state = state;
        self.unapplied.remove(0);
        Ok(Some(committed))
    }

    /// Forgets the entries behind this index, which is between `applied` and `last`. Takes no memory.
    pub fn truncate(&mut self, last: u64)
        requires from { self.old.state.applied ≤ last }
        requires to { last ≤ last_of self.old }
        ensures { self.new ≡ truncated self.old last }
    {
        let keep = (last - self.state.applied()) as usize;
        self.unapplied.truncate(keep);
    }

    /// What the unapplied entry of this index was answered when it was added; None exactly where there is
    /// no such entry.
    pub fn kept(&self, index: u64) -> Result<Option<Reply>, NoMemory>
        requires sound { IsSound self.now.state }
        ensures { IfOk result (λ r. r ≡ kept_of self.now index) }
    {
        if index <= self.state.applied() {
            return Ok(None);
        }
        let place = index - self.state.applied() - 1;
        kept_at(self.alloc, &self.state, self.unapplied.as_slice(), place)
    }

    /// The data and the numbers of a node of the uncommitted state; None exactly where there is none.
    pub fn peek(&self, path: &str) -> Result<Option<Seen>, NoMemory>
        requires sound { IsSound self.now.state }
        ensures { IfOk result (λ seen. seen ≡ seen_of (latest self.now).nodes path.now) }
    {
        let tree = replayed(self.alloc, &self.state, self.unapplied.as_slice())?;
        tree.seen(self.alloc, path)
    }

    /// The data and the numbers of a node of the committed state; None exactly where there is none.
    pub fn see(&self, path: &str) -> Result<Option<Seen>, NoMemory>
        ensures { IfOk result (λ seen. seen ≡ seen_of self.now.state.nodes path.now) }
    {
        self.state.seen(self.alloc, path)
    }

    /// A session of the uncommitted state; None exactly where there is none of this number.
    pub fn who(&self, session: u64) -> Result<Option<Session>, NoMemory>
        requires sound { IsSound self.now.state }
        ensures { IfOk result (λ found. found ≡ map.get (latest self.now).sessions session) }
    {
        let tree = replayed(self.alloc, &self.state, self.unapplied.as_slice())?;
        match tree.session(session) {
            None => Ok(None),
            Some(found) => Ok(Some(found.copy(self.alloc)?)),
        }
    }

    /// How many nodes and sessions the committed state has, and how many the uncommitted one.
    pub fn counts(&self) -> Result<Counts, NoMemory>
        requires sound { IsSound self.now.state }
        ensures { IfOk result (λ counts. counts ≡ counts_of self.now.state (latest self.now)) }
    {
        let tree = replayed(self.alloc, &self.state, self.unapplied.as_slice())?;
        let (nodes, sessions) = self.state.counts();
        let (all_nodes, all_sessions) = tree.counts();
        drop(tree);
        Ok(Counts {
            nodes,
            sessions,
            all_nodes,
            all_sessions,
        })
    }
}
