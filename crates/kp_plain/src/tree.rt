ghost use Rattle.std.specs.Prelude.{◌≡◌, ◌<◌, ◌≤◌, ◌^◌, length, map as each, IsTrue, IfOk, OnOk, OnErr};
ghost use Rattle.kp_model.specs.Limits.{longest_field};
ghost use Rattle.std.specs.List.{list_all};
ghost use Rattle.std.specs.Option.{option_copied};
ghost use Rattle.std.specs.FinMap as map;
ghost use Rattle.kp_model.specs.Good.{IsSound};
ghost use Rattle.kp_model.specs.Path.{name, root};
ghost use Rattle.kp_model.specs.Poured as poured;
ghost use Rattle.kp_model.specs.State.{empty, blank_node, seen as seen_of};
ghost use Rattle.kp_model.specs.Step as step;
ghost use Rattle.kp_prep.specs.Changing.{node_set, session_set, set_one, set_all, fits_value, fits_change};
ghost use Rattle.kp_plain.specs.Outcomes.{outcome, nodes_set};

use crate::nodes::Nodes;
use crate::pick::Pick;
use crate::pour::node_of;
use crate::sessions::Sessions;
use kp_cells::{Change, NodeValue};
use kp_model::{
    Acl, Acls, Bytes, Entry, Meta, NoMemory, Node, Origin, Paths, Seen, Session, Text, View,
};
use kp_prep::{Decided, Prepared, decide};
use std::alloc::Global;
use std::marker::Model;

/// The nodes and sessions behind some entries.
#[derive(Drop)]
pub struct Tree {
    nodes: Nodes,
    sessions: Sessions,
    // The number that the next session gets.
    next: u64,
    // The index of the last entry that was taken in.
    applied: u64,
}

impl Model for Tree {
    ghost use Rattle.kp_model.specs.State.{State};
    ghost use Rattle.kp_model.specs.Codes.{state_code};

    ghost Value = { State };

    ghost coded = { state_code };

    ghost view = { λ t. record { nodes = t.nodes; sessions = t.sessions; next = t.next; applied = t.applied } };
}

impl View for Tree {
    ghost state = { λ t. t };

    fn meta(&self, path: &str) -> Option<&Meta> {
        self.nodes.meta(path)
    }

    #[tactic(auto, unfolding(kp_model::specs::State::bytes_at))]
    fn content(&self, path: &str) -> Option<&[u8]> {
        match self.nodes.get(path) {
            None => None,
            Some(node) => Some(node.bytes.as_slice()),
        }
    }

    #[tactic(auto, unfolding(kp_model::specs::State::acl_at))]
    fn acl(&self, path: &str) -> Option<&[Acl]> {
        match self.nodes.get(path) {
            None => None,
            Some(node) => Some(node.acl.as_slice()),
        }
    }

    fn session(&self, id: u64) -> Option<&Session> {
        self.sessions.get(id)
    }

    fn holds(&self, origin: &Origin) -> bool {
        self.sessions.is_held(origin)
    }

    fn next_session(&self) -> u64 {
        self.next
    }

    #[tactic(auto, unfolding(kp_model::specs::State::kids, kp_model::specs::State::children))]
    fn kids(&self, alloc: Global, path: &str) -> Result<Paths, NoMemory> {
        let pick = Pick::ChildOf(Text::from_str(alloc, path)?);
        let paths = self.nodes.picked(alloc, &pick)?;
        names_of(alloc, &paths)
    }

    #[tactic(auto, unfolding(kp_model::specs::State::owned))]
    fn owned(&self, alloc: Global, session: u64) -> Result<Paths, NoMemory> {
        self.nodes.picked(alloc, &Pick::OwnedBy(session))
    }

    fn sessions(&self, alloc: Global) -> Result<Vec<u64>, NoMemory> {
        self.sessions.numbers(alloc)
    }

    fn paths(&self, alloc: Global) -> Result<Paths, NoMemory> {
        self.nodes.picked(alloc, &Pick::Every)
    }
}

// The name of each path.
fn names_of(alloc: Global, paths: &Paths) -> Result<Paths, NoMemory>
    ensures { IfOk result (λ names. names ≡ each name paths.now) }
{
    let mut names = Paths::new(alloc);
    for path in paths.as_slice() {
        names.push(Text::from_str(alloc, kp_path::name(path.as_str()))?)?;
    }
    Ok(names)
}

// The root of the empty tree, which gives every right to everyone.
fn blank_root(alloc: Global) -> Result<Node, NoMemory>
    ensures { IfOk result (λ node. node ≡ blank_node) }
{
    Ok(Node {
        bytes: Bytes::new(alloc),
        acl: Acls::everyone(alloc)?,
        czxid: 0,
        mzxid: 0,
        pzxid: 0,
        ctime: 0,
        mtime: 0,
        version: 0,
        cversion: 0,
        aversion: 0,
        owner: 0,
        created: 0,
    })
}

// The nodes with the one of a path set, or without it.
fn with_value(
    alloc: Global,
    mut nodes: Nodes,
    path: &str,
    value: &Option<NodeValue>,
) -> Result<Nodes, NoMemory>
    requires { IsTrue (fits_value value.now) }
    ensures { IfOk result (λ made. made ≡ nodes_set nodes path.now value.now) }
{
    match value {
        None => nodes.without(alloc, path),
        Some(value) => {
            let node = node_of(
                alloc,
                value.bytes.as_slice(),
                value.acl.as_slice(),
                &value.meta,
            )?;
            nodes.put(alloc, path, node)?;
            Ok(nodes)
        }
    }
}

// The root of the empty tree alone.
fn root_alone(alloc: Global) -> Result<Nodes, NoMemory>
    ensures { IfOk result (λ nodes. nodes ≡ map.insert map.empty root blank_node) }
{
    let root = blank_root(alloc)?;
    let mut nodes = Nodes::new(alloc);
    nodes.put(alloc, "/", root)?;
    Ok(nodes)
}

impl Tree {
    /// The root alone, and no session.
    #[tactic(auto, unfolding(kp_model::specs::State::empty))]
    pub fn new(alloc: Global) -> Result<Tree, NoMemory>
        ensures { IfOk result (λ t. t ≡ empty) }
    {
        Ok(Tree {
            nodes: root_alone(alloc)?,
            sessions: Sessions::new(alloc),
            next: 1,
            applied: 0,
        })
    }

    /// An equal value with memory of its own.
    pub fn copy(&self, alloc: Global) -> Result<Tree, NoMemory>
        ensures { IfOk result (λ made. made ≡ self.now) }
    {
        Ok(Tree {
            nodes: self.nodes.copy(alloc)?,
            sessions: self.sessions.copy(alloc)?,
            next: self.next,
            applied: self.applied,
        })
    }

    /// The index of the last entry that was taken in.
    pub fn applied(&self) -> u64
        ensures { result ≡ self.now.applied }
    {
        self.applied
    }

    /// The data and the numbers of the node of a path; None exactly where there is none.
    pub fn seen(&self, alloc: Global, path: &str) -> Result<Option<Seen>, NoMemory>
        ensures { IfOk result (λ seen. seen ≡ seen_of self.now.nodes path.now) }
    {
        match self.nodes.meta(path) {
            None => Ok(None),
            Some(meta) => match self.nodes.get(path) {
                None => Ok(None),
                Some(node) => Ok(Some(Seen {
                    bytes: node.bytes.copy(alloc)?,
                    meta: *meta,
                })),
            },
        }
    }

    // The tree with the node of a path set, or without it.
    fn set_node(
        self,
        alloc: Global,
        path: &str,
        value: &Option<NodeValue>,
    ) -> Result<Tree, NoMemory>
        requires { IsTrue (fits_value value.now) }
        ensures { IfOk result (λ t. t ≡ node_set self path.now value.now) }
    {
        let Tree {
            nodes,
            sessions,
            next,
            applied,
        } = self;
        let nodes = with_value(alloc, nodes, path, value)?;
        Ok(Tree {
            nodes,
            sessions,
            next,
            applied,
        })
    }

    // The tree with the session of a number set, or without it.
    fn set_session(
        mut self,
        alloc: Global,
        id: u64,
        session: &Option<Session>,
    ) -> Result<Tree, NoMemory>
        ensures { IfOk result (λ t. t ≡ session_set self id session.now) }
    {
        match session {
            None => self.sessions.remove(id),
            Some(session) => self.sessions.put(id, session.copy(alloc)?)?,
        }
        Ok(self)
    }

    // The tree with one change set.
    fn set(mut self, alloc: Global, change: &Change) -> Result<Tree, NoMemory>
        requires { IsTrue (fits_change change.now) }
        ensures { IfOk result (λ t. t ≡ set_one self change.now) }
    {
        match change {
            Change::Node(path, value) => self.set_node(alloc, path.as_str(), value),
            Change::Session(id, session) => self.set_session(alloc, *id, session),
            Change::NextSession(next) => {
                self.next = *next;
                Ok(self)
            }
        }
    }

    // The tree with all changes set, in their order.
    fn changed(self, alloc: Global, changes: &[Change]) -> Result<Tree, NoMemory>
        requires { IsTrue (list_all fits_change changes.now) }
        ensures { IfOk result (λ t. t ≡ set_all self changes.now) }
    {
        let mut tree = self;
        for change in changes {
            tree = tree.set(alloc, change)?;
        }
        Ok(tree)
    }

    /// The tree behind the next entry, and what that is answered.
    pub fn take(self, alloc: Global, entry: &Entry) -> Result<(Tree, Prepared), NoMemory>
        requires room { self.applied < 2 ^ 62 }
        requires sound { IsSound self }
        ensures { IfOk result (λ x. outcome x.0 x.1 ≡ step.apply self entry.now) }
    {
        let index = self.applied + 1;
        let Decided { prepared, changes } = decide(alloc, &self, index, entry)?;
        let mut tree = self.changed(alloc, changes.as_slice())?;
        tree.applied = index;
        Ok((tree, prepared))
    }

    /// Sets the applied index and the next session number.
    pub fn start(&mut self, applied: u64, next_session: u64)
        ensures { self.new ≡ poured.started self.old applied next_session }
    {
        self.applied = applied;
        self.next = next_session;
    }

    /// Sets a session. After an error nothing has changed.
    pub fn put_session(&mut self, alloc: Global, id: u64, session: &Session) -> Result<(), NoMemory>
        ensures ok { OnOk result (self.new ≡ poured.with_session self.old id session.now) }
        ensures err { OnErr result (self.new ≡ self.old) }
    {
        let copy = session.copy(alloc)?;
        self.sessions.put(id, copy)
    }

    /// Sets a node. After an error nothing has changed.
    pub fn put_node(&mut self, alloc: Global, path: &str, node: Node) -> Result<(), NoMemory>
        requires { length node.bytes ≤ longest_field }
        ensures ok { OnOk result (self.new ≡ poured.with_node self.old path.now node) }
        ensures err { OnErr result (self.new ≡ self.old) }
    {
        self.nodes.put(alloc, path, node)
    }

    /// How many nodes and how many sessions there are.
    pub fn counts(&self) -> (u64, u64)
        ensures nodes { result.0 ≡ map.len self.now.nodes }
        ensures sessions { result.1 ≡ map.len self.now.sessions }
    {
        (self.nodes.len(), self.sessions.len())
    }
}
