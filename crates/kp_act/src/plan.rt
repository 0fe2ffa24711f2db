ghost use Rattle.std.specs.Prelude.{◌≡◌, IfOk};

use kp_model::{Acls, Bytes, Duplicate, Events, Items, Meta, NoMemory, Reply, Session, Text};
use std::alloc::Global;

/// What an entry is answered.
#[derive(Drop)]
pub struct Prepared {
    pub reply: Reply,
    /// The events in the order in which they fire.
    pub events: Events,
}

/// What a command does to the tree.
#[derive(Drop)]
pub enum Effect {
    /// Nothing, since the command asks for nothing or ends in an error.
    Nothing,
    /// A node is made, which `meta.owner` owns where that isn't 0. `up` are its parent's numbers then.
    Make {
        path: Text,
        bytes: Bytes,
        acl: Acls,
        meta: Meta,
        up: Meta,
    },
    /// A node is removed. `up` are its parent's numbers then, and `owner` its session, or 0.
    Remove {
        path: Text,
        up: Meta,
        owner: u64,
    },
    /// The data of a node is set. `meta` are its numbers then.
    Set {
        path: Text,
        bytes: Bytes,
        meta: Meta,
    },
    /// The access list of a node is set. `meta` are its numbers then.
    SetAcl {
        path: Text,
        acl: Acls,
        meta: Meta,
    },
}

/// Effects in the order in which they are made.
pub type Effects = Items<Effect>;

/// The answer of a command and what it does.
#[derive(Drop)]
pub struct Act {
    pub prepared: Prepared,
    pub effect: Effect,
}

/// The answer of an entry and all that it does.
#[derive(Drop)]
pub struct Plan {
    pub prepared: Prepared,
    /// A session that is set, with its number; with None inside it goes.
    pub session: Option<(u64, Option<Session>)>,
    /// The number that the next session gets then.
    pub next: Option<u64>,
    pub effects: Effects,
}

/// The numbers of a node and of its parent.
#[derive(Clone, Copy)]
pub struct Found {
    pub up: Meta,
    pub meta: Meta,
}

/// The index of an entry, and its time in milliseconds.
#[derive(Clone, Copy)]
pub struct Stamp {
    pub index: u64,
    pub time: u64,
}

impl Prepared {
    /// An equal value with memory of its own.
    pub fn copy(&self, alloc: Global) -> Result<Prepared, NoMemory>
        ensures { IfOk result (λ made. made ≡ self.now) }
    {
        Ok(Prepared {
            reply: self.reply.copy(alloc)?,
            events: self.events.copy(alloc)?,
        })
    }
}

impl Effect {
    /// An equal value with memory of its own.
    pub fn copy(&self, alloc: Global) -> Result<Effect, NoMemory>
        ensures { IfOk result (λ made. made ≡ self.now) }
    {
        match self {
            Effect::Nothing => Ok(Effect::Nothing),
            Effect::Make {
                path,
                bytes,
                acl,
                meta,
                up,
            } => Ok(Effect::Make {
                path: path.copy(alloc)?,
                bytes: bytes.copy(alloc)?,
                acl: acl.copy(alloc)?,
                meta: *meta,
                up: *up,
            }),
            Effect::Remove { path, up, owner } => Ok(Effect::Remove {
                path: path.copy(alloc)?,
                up: *up,
                owner: *owner,
            }),
            Effect::Set { path, bytes, meta } => Ok(Effect::Set {
                path: path.copy(alloc)?,
                bytes: bytes.copy(alloc)?,
                meta: *meta,
            }),
            Effect::SetAcl { path, acl, meta } => Ok(Effect::SetAcl {
                path: path.copy(alloc)?,
                acl: acl.copy(alloc)?,
                meta: *meta,
            }),
        }
    }
}

impl Duplicate for Effect {
    fn duplicate(&self, alloc: Global) -> Result<Effect, NoMemory> {
        self.copy(alloc)
    }
}

impl Act {
    /// An equal value with memory of its own.
    pub fn copy(&self, alloc: Global) -> Result<Act, NoMemory>
        ensures { IfOk result (λ made. made ≡ self.now) }
    {
        Ok(Act {
            prepared: self.prepared.copy(alloc)?,
            effect: self.effect.copy(alloc)?,
        })
    }
}

impl Plan {
    /// An equal value with memory of its own.
    pub fn copy(&self, alloc: Global) -> Result<Plan, NoMemory>
        ensures { IfOk result (λ made. made ≡ self.now) }
    {
        Ok(Plan {
            prepared: self.prepared.copy(alloc)?,
            session: copy_session(alloc, &self.session)?,
            next: self.next,
            effects: self.effects.copy(alloc)?,
        })
    }
}

// The copy of a session that is set or goes, where there is one.
fn copy_session(
    alloc: Global,
    session: &Option<(u64, Option<Session>)>,
) -> Result<Option<(u64, Option<Session>)>, NoMemory>
    ensures { IfOk result (λ made. made ≡ session.now) }
{
    match session {
        None => Ok(None),
        Some((id, None)) => Ok(Some((*id, None))),
        Some((id, Some(session))) => Ok(Some((*id, Some(session.copy(alloc)?)))),
    }
}
