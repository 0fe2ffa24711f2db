//! The bodies of the entries that lines of the store language add.
ghost use Rattle.std.specs.Prelude.{◌≤◌, IfOk, IfSome, IsTrue};
ghost use Rattle.kp_model.specs.Grammar.{is_body};
ghost use Rattle.kp_text.specs.Spelling.{is_line};

use kp_model::{Acl, Acls, Body, Cmd, NoMemory, Op, Ops, Origin, Text};
use kp_text::{Command, LineFail, Operation, StoreLine, read_store_line};
use std::alloc::Global;

/// The origin of a session that the n-th step opens or takes over: one of a few, which may hold a session already.
fn origin(n: u64) -> Origin
    ensures { (result.boot ≤ 100000) × (result.conn ≤ 100000) }
{
    Origin {
        node: 0,
        boot: 0,
        conn: n % 24,
    }
}

/// The access list that gives every right to everyone.
fn everyone(alloc: Global) -> Result<Acls, NoMemory> {
    let mut acl = Acls::new(alloc);
    acl.push(Acl {
        perms: 31,
        scheme: Text::from_str(alloc, "world")?,
        id: Text::from_str(alloc, "anyone")?,
    })?;
    Ok(acl)
}

/// The given access list, or that of everyone.
fn list(alloc: Global, acl: &Option<Acls>) -> Result<Acls, NoMemory> {
    match acl {
        None => everyone(alloc),
        Some(acl) => acl.copy(alloc),
    }
}

fn op(alloc: Global, operation: &Operation) -> Result<Op, NoMemory> {
    match operation {
        Operation::Create {
            path,
            flags,
            bytes,
            acl,
        } => Ok(Op::Create {
            path: path.copy(alloc)?,
            bytes: bytes.copy(alloc)?,
            acl: list(alloc, acl)?,
            flags: *flags,
            stat: false,
        }),
        Operation::Delete { path, version } => Ok(Op::Delete {
            path: path.copy(alloc)?,
            version: *version,
        }),
        Operation::Set {
            path,
            bytes,
            version,
        } => Ok(Op::SetData {
            path: path.copy(alloc)?,
            bytes: bytes.copy(alloc)?,
            version: *version,
        }),
        Operation::Check { path, version } => Ok(Op::Check {
            path: path.copy(alloc)?,
            version: *version,
        }),
    }
}

fn ops(alloc: Global, operations: &[Operation]) -> Result<Ops, NoMemory> {
    let mut ops = Ops::new(alloc);
    for operation in operations {
        ops.push(op(alloc, operation)?)?;
    }
    Ok(ops)
}

/// An operation alone.
fn alone(op: Op) -> Cmd {
    match op {
        Op::Create {
            path,
            bytes,
            acl,
            flags,
            stat,
        } => Cmd::Create {
            path,
            bytes,
            acl,
            flags,
            stat,
        },
        Op::Delete { path, version } => Cmd::Delete { path, version },
        Op::SetData {
            path,
            bytes,
            version,
        } => Cmd::SetData {
            path,
            bytes,
            version,
        },
        Op::Check { path, version } => Cmd::Check { path, version },
    }
}

fn cmd(alloc: Global, command: &Command) -> Result<Cmd, NoMemory> {
    match command {
        Command::Operation(operation) => Ok(alone(op(alloc, operation)?)),
        Command::SetAcl { path, version, acl } => Ok(Cmd::SetAcl {
            path: path.copy(alloc)?,
            acl: acl.copy(alloc)?,
            version: *version,
        }),
        Command::Auth { scheme, auth } => Ok(Cmd::Auth {
            scheme: scheme.copy(alloc)?,
            auth: auth.copy(alloc)?,
        }),
        Command::Multi { operations } => Ok(Cmd::Multi {
            ops: ops(alloc, operations.as_slice())?,
        }),
        Command::Sync { path } => Ok(Cmd::Sync {
            path: path.copy(alloc)?,
        }),
        Command::Close => Ok(Cmd::CloseSession),
    }
}

/// The body of the entry that a line adds in the n-th step; a no-op for the lines that add none or give no number.
fn body_of(alloc: Global, n: u64, line: &StoreLine) -> Result<Body, NoMemory>
    requires { IsTrue (is_line line.now) }
    ensures numbers { IfOk result (λ b. IsTrue (is_body b)) }
{
    match line {
        StoreLine::Open { timeout, passwd } => Ok(Body::OpenSession {
            timeout: *timeout,
            passwd: *passwd,
            origin: origin(n),
        }),
        StoreLine::Attach { session, passwd } => Ok(Body::Attach {
            session: *session,
            passwd: *passwd,
            origin: origin(n),
        }),
        StoreLine::Expire { session } => Ok(Body::Expire { session: *session }),
        StoreLine::Raw {
            session,
            epoch,
            seq,
            command,
        } => Ok(Body::Write {
            session: *session,
            epoch: *epoch,
            seq: *seq,
            cmd: cmd(alloc, command)?,
        }),
        _ => Ok(Body::Noop),
    }
}

/// The body of the entry that a text adds; None where it is no line.
pub fn read_body(alloc: Global, n: u64, text: &[u8]) -> Result<Option<Body>, NoMemory>
    ensures numbers { IfOk result (λ o. IfSome o (λ b. IsTrue (is_body b))) }
{
    match read_store_line(alloc, text) {
        Ok(line) => {
            let body = body_of(alloc, n, &line);
            drop(line);
            Ok(Some(body?))
        }
        Err(LineFail::BadLine) => Ok(None),
        Err(LineFail::NoMemory) => Err(NoMemory),
    }
}
