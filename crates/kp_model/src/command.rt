ghost use Rattle.std.specs.Prelude.{◌≡◌, IfOk};

use crate::items::Items;
use crate::memory::{Duplicate, NoMemory};
use crate::node::Acls;
use crate::text::{Bytes, Text};
use std::alloc::Global;

/// The operations of a multi.
pub type Ops = Items<Op>;

/// A command of a session. Versions and flags are in two's complement: version 4,294,967,295 is -1 and
/// matches every version.
#[derive(Drop)]
pub enum Cmd {
    /// Makes a node. Flag 1 makes the session its owner, flag 2 adds a number to the path.
    /// `stat` tells whether the reply has the node's numbers beside its path.
    Create {
        path: Text,
        bytes: Bytes,
        acl: Acls,
        flags: u32,
        stat: bool,
    },
    /// Removes a node without children.
    Delete {
        path: Text,
        version: u32,
    },
    /// Sets the data of a node.
    SetData {
        path: Text,
        bytes: Bytes,
        version: u32,
    },
    /// Sets the access list of a node; `version` is compared with its aversion.
    SetAcl {
        path: Text,
        acl: Acls,
        version: u32,
    },
    /// Looks whether a node has a version.
    Check {
        path: Text,
        version: u32,
    },
    /// Adds the digest id of `auth`, which is `user:password`, to the session's ids.
    Auth {
        scheme: Text,
        auth: Bytes,
    },
    /// Takes all operations, or none where one fails.
    Multi {
        ops: Ops,
    },
    /// Changes nothing and answers the path.
    Sync {
        path: Text,
    },
    /// Ends the session and removes the nodes that it owns.
    CloseSession,
}

/// A command that a multi may hold, with the fields that `Cmd` gives it.
#[derive(Drop)]
pub enum Op {
    Create {
        path: Text,
        bytes: Bytes,
        acl: Acls,
        flags: u32,
        stat: bool,
    },
    Delete {
        path: Text,
        version: u32,
    },
    SetData {
        path: Text,
        bytes: Bytes,
        version: u32,
    },
    Check {
        path: Text,
        version: u32,
    },
}

impl Op {
    /// An equal value with memory of its own.
    pub fn copy(&self, alloc: Global) -> Result<Op, NoMemory>
        ensures { IfOk result (λ made. made ≡ self.now) }
    {
        match self {
            Op::Create {
                path,
                bytes,
                acl,
                flags,
                stat,
            } => Ok(Op::Create {
                path: path.copy(alloc)?,
                bytes: bytes.copy(alloc)?,
                acl: acl.copy(alloc)?,
                flags: *flags,
                stat: *stat,
            }),
            Op::Delete { path, version } => Ok(Op::Delete {
                path: path.copy(alloc)?,
                version: *version,
            }),
            Op::SetData {
                path,
                bytes,
                version,
            } => Ok(Op::SetData {
                path: path.copy(alloc)?,
                bytes: bytes.copy(alloc)?,
                version: *version,
            }),
            Op::Check { path, version } => Ok(Op::Check {
                path: path.copy(alloc)?,
                version: *version,
            }),
        }
    }
}

impl Duplicate for Op {
    fn duplicate(&self, alloc: Global) -> Result<Op, NoMemory> {
        self.copy(alloc)
    }
}

impl Cmd {
    /// An equal value with memory of its own.
    pub fn copy(&self, alloc: Global) -> Result<Cmd, NoMemory>
        ensures { IfOk result (λ made. made ≡ self.now) }
    {
        match self {
            Cmd::Create {
                path,
                bytes,
                acl,
                flags,
                stat,
            } => Ok(Cmd::Create {
                path: path.copy(alloc)?,
                bytes: bytes.copy(alloc)?,
                acl: acl.copy(alloc)?,
                flags: *flags,
                stat: *stat,
            }),
            Cmd::Delete { path, version } => Ok(Cmd::Delete {
                path: path.copy(alloc)?,
                version: *version,
            }),
            Cmd::SetData {
                path,
                bytes,
                version,
            } => Ok(Cmd::SetData {
                path: path.copy(alloc)?,
                bytes: bytes.copy(alloc)?,
                version: *version,
            }),
            Cmd::SetAcl { path, acl, version } => Ok(Cmd::SetAcl {
                path: path.copy(alloc)?,
                acl: acl.copy(alloc)?,
                version: *version,
            }),
            Cmd::Check { path, version } => Ok(Cmd::Check {
                path: path.copy(alloc)?,
                version: *version,
            }),
            Cmd::Auth { scheme, auth } => Ok(Cmd::Auth {
                scheme: scheme.copy(alloc)?,
                auth: auth.copy(alloc)?,
            }),
            Cmd::Multi { ops } => Ok(Cmd::Multi {
                ops: ops.copy(alloc)?,
            }),
            Cmd::Sync { path } => Ok(Cmd::Sync {
                path: path.copy(alloc)?,
            }),
            Cmd::CloseSession => Ok(Cmd::CloseSession),
        }
    }
}
