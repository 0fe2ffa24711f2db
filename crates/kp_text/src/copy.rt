//! Equal values with memory of their own.

ghost use Rattle.std.specs.Prelude.{◌≡◌, IfOk};

use crate::command::{Command, Operation};
use crate::line::StoreLine;
use kp_model::{Acls, Duplicate, NoMemory};
use std::alloc::Global;

impl StoreLine {
    /// An equal value with memory of its own.
    pub fn copy(&self, alloc: Global) -> Result<StoreLine, NoMemory>
        ensures { IfOk result (λ made. made ≡ self.now) }
    {
        match self {
            StoreLine::Time { time } => Ok(StoreLine::Time { time: *time }),
            StoreLine::Open { timeout, passwd } => Ok(StoreLine::Open {
                timeout: *timeout,
                passwd: *passwd,
            }),
            StoreLine::Attach { session, passwd } => Ok(StoreLine::Attach {
                session: *session,
                passwd: *passwd,
            }),
            StoreLine::Expire { session } => Ok(StoreLine::Expire { session: *session }),
            StoreLine::Noop => Ok(StoreLine::Noop),
            StoreLine::Write { session, command } => Ok(StoreLine::Write {
                session: *session,
                command: command.copy(alloc)?,
            }),
            StoreLine::Raw {
                session,
                epoch,
                seq,
                command,
            } => Ok(StoreLine::Raw {
                session: *session,
                epoch: *epoch,
                seq: *seq,
                command: command.copy(alloc)?,
            }),
            StoreLine::Commit => Ok(StoreLine::Commit),
            StoreLine::Truncate { last } => Ok(StoreLine::Truncate { last: *last }),
            StoreLine::Peek { path } => Ok(StoreLine::Peek {
                path: path.copy(alloc)?,
            }),
            StoreLine::See { path } => Ok(StoreLine::See {
                path: path.copy(alloc)?,
            }),
            StoreLine::Kids { path } => Ok(StoreLine::Kids {
                path: path.copy(alloc)?,
            }),
            StoreLine::Ls { path } => Ok(StoreLine::Ls {
                path: path.copy(alloc)?,
            }),
            StoreLine::Acl { path } => Ok(StoreLine::Acl {
                path: path.copy(alloc)?,
            }),
            StoreLine::Who { session } => Ok(StoreLine::Who { session: *session }),
        }
    }
}

impl Command {
    /// An equal value with memory of its own.
    pub fn copy(&self, alloc: Global) -> Result<Command, NoMemory>
        ensures { IfOk result (λ made. made ≡ self.now) }
    {
        match self {
            Command::Operation(operation) => Ok(Command::Operation(operation.copy(alloc)?)),
            Command::SetAcl { path, version, acl } => Ok(Command::SetAcl {
                path: path.copy(alloc)?,
                version: *version,
                acl: acl.copy(alloc)?,
            }),
            Command::Auth { scheme, auth } => Ok(Command::Auth {
                scheme: scheme.copy(alloc)?,
                auth: auth.copy(alloc)?,
            }),
            Command::Multi { operations } => Ok(Command::Multi {
                operations: operations.copy(alloc)?,
            }),
            Command::Sync { path } => Ok(Command::Sync {
                path: path.copy(alloc)?,
            }),
            Command::Close => Ok(Command::Close),
        }
    }
}

impl Operation {
    /// An equal value with memory of its own.
    pub fn copy(&self, alloc: Global) -> Result<Operation, NoMemory>
        ensures { IfOk result (λ made. made ≡ self.now) }
    {
        match self {
            Operation::Create {
                path,
                flags,
                bytes,
                acl,
            } => Ok(Operation::Create {
                path: path.copy(alloc)?,
                flags: *flags,
                bytes: bytes.copy(alloc)?,
                acl: copy_list(alloc, acl)?,
            }),
            Operation::Delete { path, version } => Ok(Operation::Delete {
                path: path.copy(alloc)?,
                version: *version,
            }),
            Operation::Set {
                path,
                bytes,
                version,
            } => Ok(Operation::Set {
                path: path.copy(alloc)?,
                bytes: bytes.copy(alloc)?,
                version: *version,
            }),
            Operation::Check { path, version } => Ok(Operation::Check {
                path: path.copy(alloc)?,
                version: *version,
            }),
        }
    }
}

impl Duplicate for Operation {
    fn duplicate(&self, alloc: Global) -> Result<Operation, NoMemory> {
        self.copy(alloc)
    }
}

/// The access list of a creation, where it has one.
fn copy_list(alloc: Global, acl: &Option<Acls>) -> Result<Option<Acls>, NoMemory>
    ensures { IfOk result (λ made. made ≡ acl.now) }
{
    match acl {
        None => Ok(None),
        Some(acl) => Ok(Some(acl.copy(alloc)?)),
    }
}
