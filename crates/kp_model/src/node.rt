ghost use Rattle.std.specs.Prelude.{◌≡◌, IfOk};
ghost use Rattle.kp_model.specs.State.{open_acl};

use crate::items::Items;
use crate::memory::{Duplicate, NoMemory};
use crate::text::{Bytes, Text};
use std::alloc::Global;

/// The access list of a node.
pub type Acls = Items<Acl>;

/// One line of an access list: who has which rights.
#[derive(Drop)]
pub struct Acl {
    /// The sum of READ 1, WRITE 2, CREATE 4, DELETE 8 and ADMIN 16.
    pub perms: u32,
    /// `world` or `digest` in a node's list; a list that is given may say `auth` too.
    pub scheme: Text,
    /// `anyone` for the scheme `world`, `user:hash` for the scheme `digest`.
    pub id: Text,
}

/// The numbers that are shown of a node. Indexes are those of log entries, times are milliseconds.
#[derive(Clone, Copy, PartialEq, Eq)]
pub struct Meta {
    /// The index of the entry that made the node.
    pub czxid: u64,
    /// The index of the entry that last set its data.
    pub mzxid: u64,
    /// The index of the entry that last changed the set of its children.
    pub pzxid: u64,
    /// The time of the entry that made it.
    pub ctime: u64,
    /// The time of the entry that last set its data.
    pub mtime: u64,
    /// How often its data was set.
    pub version: u32,
    /// How often its set of children changed.
    pub cversion: u32,
    /// How often its access list was set.
    pub aversion: u32,
    /// The session that owns it, or 0 where it is persistent.
    pub owner: u64,
    /// How many children were ever made under it.
    pub created: u32,
    /// The length of its data in bytes.
    pub len: u32,
    /// How many children it has, held at 2,147,483,647.
    pub kids: u32,
}

/// A node of the tree. What its data's length and its children tell is in `Meta` alone.
#[derive(Drop)]
pub struct Node {
    pub bytes: Bytes,
    pub acl: Acls,
    pub czxid: u64,
    pub mzxid: u64,
    pub pzxid: u64,
    pub ctime: u64,
    pub mtime: u64,
    pub version: u32,
    pub cversion: u32,
    pub aversion: u32,
    pub owner: u64,
    pub created: u32,
}

/// What is seen of a node: its data and its numbers.
#[derive(Drop)]
pub struct Seen {
    pub bytes: Bytes,
    pub meta: Meta,
}

impl Items<Acl> {
    /// The access list that gives every right to everyone.
    pub fn everyone(alloc: Global) -> Result<Acls, NoMemory>
        ensures { IfOk result (λ made. made ≡ open_acl) }
    {
        let mut acl = Items::new(alloc);
        acl.push(Acl {
            perms: 31,
            scheme: Text::from_str(alloc, "world")?,
            id: Text::from_str(alloc, "anyone")?,
        })?;
        Ok(acl)
    }
}

impl Acl {
    /// An equal value with memory of its own.
    pub fn copy(&self, alloc: Global) -> Result<Acl, NoMemory>
        ensures { IfOk result (λ made. made ≡ self.now) }
    {
        Ok(Acl {
            perms: self.perms,
            scheme: self.scheme.copy(alloc)?,
            id: self.id.copy(alloc)?,
        })
    }
}

impl Duplicate for Acl {
    fn duplicate(&self, alloc: Global) -> Result<Acl, NoMemory> {
        self.copy(alloc)
    }
}

impl Node {
    /// An equal value with memory of its own.
    pub fn copy(&self, alloc: Global) -> Result<Node, NoMemory>
        ensures { IfOk result (λ made. made ≡ self.now) }
    {
        Ok(Node {
            bytes: self.bytes.copy(alloc)?,
            acl: self.acl.copy(alloc)?,
            czxid: self.czxid,
            mzxid: self.mzxid,
            pzxid: self.pzxid,
            ctime: self.ctime,
            mtime: self.mtime,
            version: self.version,
            cversion: self.cversion,
            aversion: self.aversion,
            owner: self.owner,
            created: self.created,
        })
    }
}

impl Seen {
    /// An equal value with memory of its own.
    pub fn copy(&self, alloc: Global) -> Result<Seen, NoMemory>
        ensures { IfOk result (λ made. made ≡ self.now) }
    {
        Ok(Seen {
            bytes: self.bytes.copy(alloc)?,
            meta: self.meta,
        })
    }
}
