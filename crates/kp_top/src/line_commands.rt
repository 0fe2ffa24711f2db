ghost use Rattle.std.specs.Prelude.{◌≡◌, map, IfOk};
ghost use Rattle.kp_top.specs.LineCommands.{given_acl as given_lines, operation_cmd as operation_asks, nested_op as nested_asks, cmd_of as asks};

use kp_model::{Acls, Cmd, NoMemory, Op, Ops};
use kp_text::{Command, Operation};
use std::alloc::Global;

/// The access list of a creation: every right for everyone where none is given.
fn given_acl(alloc: Global, acl: Option<Acls>) -> Result<Acls, NoMemory>
    ensures { IfOk result (λ made. made ≡ given_lines acl) }
{
    match acl {
        None => Acls::everyone(alloc),
        Some(acl) => Ok(acl),
    }
}

/// What an operation of a line asks for.
fn operation_cmd(alloc: Global, operation: Operation) -> Result<Cmd, NoMemory>
    ensures { IfOk result (λ c. c ≡ operation_asks operation) }
{
    match operation {
        Operation::Create {
            path,
            flags,
            bytes,
            acl,
        } => Ok(Cmd::Create {
            path,
            bytes,
            acl: given_acl(alloc, acl)?,
            flags,
            stat: false,
        }),
        Operation::Delete { path, version } => Ok(Cmd::Delete { path, version }),
        Operation::Set {
            path,
            bytes,
            version,
        } => Ok(Cmd::SetData {
            path,
            bytes,
            version,
        }),
        Operation::Check { path, version } => Ok(Cmd::Check { path, version }),
    }
}

/// The access list of a creation in a multi.
fn nested_acl(alloc: Global, acl: &Option<Acls>) -> Result<Acls, NoMemory>
    ensures { IfOk result (λ made. made ≡ given_lines acl.now) }
{
    match acl {
        None => Acls::everyone(alloc),
        Some(acl) => acl.copy(alloc),
    }
}

/// What an operation of a multi asks for.
fn nested_op(alloc: Global, operation: &Operation) -> Result<Op, NoMemory>
    ensures { IfOk result (λ o. o ≡ nested_asks operation.now) }
{
    match operation {
        Operation::Create {
            path,
            flags,
            bytes,
            acl,
        } => Ok(Op::Create {
            path: path.copy(alloc)?,
            bytes: bytes.copy(alloc)?,
            acl: nested_acl(alloc, acl)?,
            flags: *flags,
            stat: false,
        }),
        Operation::Delete { path, version } => Ok(Op::Delete {
            path: path.copy(alloc)?,
            version: *version,
        }),
        Operation::Set {
            path,
            bytes,
            version,
        } => Ok(Op::SetData {
            path: path.copy(alloc)?,
            bytes: bytes.copy(alloc)?,
            version: *version,
        }),
        Operation::Check { path, version } => Ok(Op::Check {
            path: path.copy(alloc)?,
            version: *version,
        }),
    }
}

/// What the operations of a multi ask for.
fn nested_ops(alloc: Global, operations: &[Operation]) -> Result<Ops, NoMemory>
    ensures { IfOk result (λ ops. ops ≡ map nested_asks operations.now) }
{
    let mut ops = Ops::new(alloc);
    for operation in operations {
        ops.push(nested_op(alloc, operation)?)?;
    }
    Ok(ops)
}

/// What the command of a line asks for.
#[tactic(auto, unfolding(crate::specs::LineCommands::cmd_of))]
pub fn cmd_of(alloc: Global, command: Command) -> Result<Cmd, NoMemory>
    ensures { IfOk result (λ c. c ≡ asks command) }
{
    match command {
        Command::Operation(operation) => operation_cmd(alloc, operation),
        Command::SetAcl { path, version, acl } => Ok(Cmd::SetAcl { path, acl, version }),
        Command::Auth { scheme, auth } => Ok(Cmd::Auth { scheme, auth }),
        Command::Multi { operations } => Ok(Cmd::Multi {
            ops: nested_ops(alloc, operations.as_slice())?,
        }),
        Command::Sync { path } => Ok(Cmd::Sync { path }),
        Command::Close => Ok(Cmd::CloseSession),
    }
}
