ghost use Rattle.std.specs.Prelude.{◌≡◌, IfOk};

use crate::memory::NoMemory;
use crate::node::{Acls, Meta};
use crate::text::{Bytes, Paths, Text};
use std::alloc::Global;

/// A question about a node of the committed tree.
#[derive(Drop)]
pub enum ReadCmd {
    Exists { path: Text },
    GetData { path: Text },
    GetAcl { path: Text },
    GetChildren { path: Text },
}

/// The answer to a `ReadCmd`.
#[derive(Drop)]
pub enum ReadReply {
    /// One of the codes in `errors`.
    Err(i32),
    Stat(Meta),
    Data(Bytes, Meta),
    Acl(Acls, Meta),
    Names(Paths, Meta),
}

/// What a member of a cluster is at the moment.
#[derive(Clone, Copy, PartialEq, Eq)]
pub enum Role {
    Follower,
    Candidate,
    Leader,
}

impl ReadCmd {
    /// An equal value with memory of its own.
    pub fn copy(&self, alloc: Global) -> Result<ReadCmd, NoMemory>
        ensures { IfOk result (λ made. made ≡ self.now) }
    {
        match self {
            ReadCmd::Exists { path } => Ok(ReadCmd::Exists {
                path: path.copy(alloc)?,
            }),
            ReadCmd::GetData { path } => Ok(ReadCmd::GetData {
                path: path.copy(alloc)?,
            }),
            ReadCmd::GetAcl { path } => Ok(ReadCmd::GetAcl {
                path: path.copy(alloc)?,
            }),
            ReadCmd::GetChildren { path } => Ok(ReadCmd::GetChildren {
                path: path.copy(alloc)?,
            }),
        }
    }
}

impl ReadReply {
    /// An equal value with memory of its own.
    pub fn copy(&self, alloc: Global) -> Result<ReadReply, NoMemory>
        ensures { IfOk result (λ made. made ≡ self.now) }
    {
        match self {
            ReadReply::Err(code) => Ok(ReadReply::Err(*code)),
            ReadReply::Stat(meta) => Ok(ReadReply::Stat(*meta)),
            ReadReply::Data(bytes, meta) => Ok(ReadReply::Data(bytes.copy(alloc)?, *meta)),
            ReadReply::Acl(acl, meta) => Ok(ReadReply::Acl(acl.copy(alloc)?, *meta)),
            ReadReply::Names(names, meta) => Ok(ReadReply::Names(names.copy(alloc)?, *meta)),
        }
    }
}
