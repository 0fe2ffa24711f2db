//! Changes of a tree and its sessions.

ghost use Rattle.std.specs.Prelude.{◌≡◌, IfOk};

use kp_model::{Acl, Acls, Bytes, Duplicate, Items, Meta, NoMemory, Session, Text};
use std::alloc::Global;

/// Changes in the order in which they are set.
pub type Changes = Items<Change>;

/// A node that is set. What `meta` says of the length and of the children is told by the tree.
#[derive(Drop)]
pub struct NodeValue {
    pub bytes: Bytes,
    pub acl: Acls,
    pub meta: Meta,
}

/// One change of the tree or its sessions.
#[derive(Drop)]
pub enum Change {
    /// The node at a path is set, or removed.
    Node(Text, Option<NodeValue>),
    /// The session of a number is set, or removed.
    Session(u64, Option<Session>),
    /// The number that the next session gets.
    NextSession(u64),
}

/// An access list with memory of its own, equal to a lent one.
pub fn copied_acl(alloc: Global, from: &[Acl]) -> Result<Acls, NoMemory>
    ensures { IfOk result (λ acl. acl ≡ from.now) }
{
    let mut acl = Acls::new(alloc);
    for line in from {
        acl.push(line.copy(alloc)?)?;
    }
    Ok(acl)
}

impl NodeValue {
    /// An equal value with memory of its own.
    pub fn copy(&self, alloc: Global) -> Result<NodeValue, NoMemory>
        ensures { IfOk result (λ made. made ≡ self.now) }
    {
        Ok(NodeValue {
            bytes: self.bytes.copy(alloc)?,
            acl: self.acl.copy(alloc)?,
            meta: self.meta,
        })
    }
}

impl Change {
    /// An equal value with memory of its own.
    pub fn copy(&self, alloc: Global) -> Result<Change, NoMemory>
        ensures { IfOk result (λ made. made ≡ self.now) }
    {
        match self {
            Change::Node(path, node) => Ok(Change::Node(
                path.copy(alloc)?,
                copy_node(alloc, node)?,
            )),
            Change::Session(id, session) => Ok(Change::Session(*id, copy_session(alloc, session)?)),
            Change::NextSession(next) => Ok(Change::NextSession(*next)),
        }
    }
}

impl Duplicate for Change {
    fn duplicate(&self, alloc: Global) -> Result<Change, NoMemory> {
        self.copy(alloc)
    }
}

// The copy of a node that may be missing.
fn copy_node(alloc: Global, node: &Option<NodeValue>) -> Result<Option<NodeValue>, NoMemory>
    ensures { IfOk result (λ made. made ≡ node.now) }
{
    match node {
        None => Ok(None),
        Some(node) => Ok(Some(node.copy(alloc)?)),
    }
}

// The copy of a session that may be missing.
fn copy_session(alloc: Global, session: &Option<Session>) -> Result<Option<Session>, NoMemory>
    ensures { IfOk result (λ made. made ≡ session.now) }
{
    match session {
        None => Ok(None),
        Some(session) => Ok(Some(session.copy(alloc)?)),
    }
}
