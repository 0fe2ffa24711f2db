//! Reading commands.

ghost use Rattle.std.specs.Prelude.{◌≡◌};
ghost use Rattle.kp_jute.specs.Form.{Gives};
ghost use Rattle.kp_entry.specs.declared.kinds.CmdKind.TheVariants as cmd_tag;
ghost use Rattle.kp_entry.specs.declared.kinds.OpKind.TheVariants as op_tag;
ghost use Rattle.kp_entry.specs.Fields.{kinds, kind_in};
ghost use Rattle.kp_entry.specs.Commands.{op_kinds, op_number, op_in, ops, cmd_kinds, cmd_number, cmd_in, cmd_of, cmds};

use crate::fields::{read_byte, read_bytes, read_text};
use crate::kinds::{CmdKind, OpKind};
use crate::list::read_list;
use kp_jute::{JuteFail, Reader};
use kp_model::{Cmd, Op};
use std::alloc::Global;

/// Reads a command: its kind and the fields of the kind. A reader of which one is refused is to be dropped.
#[tactic(auto, unfolding(crate::specs::Commands::cmd_in))]
pub fn read_cmd(alloc: Global, reader: &mut Reader<'_>) -> Result<Cmd, JuteFail>
    ensures { Gives (λ c. c) result reader.new (cmds.read reader.old) }
{
    let kind = cmd_kind(reader)?;
    cmd_of_kind(alloc, reader, kind)
}

fn cmd_kind(reader: &mut Reader<'_>) -> Result<CmdKind, JuteFail>
    ensures { Gives (λ k. k) result reader.new ((kinds cmd_kinds cmd_number).read reader.old) }
{
    let at = reader.place();
    let number = read_byte(reader)?;
    match cmd_kind_of(number) {
        Some(kind) => Ok(kind),
        None => Err(JuteFail::BadByte { at }),
    }
}

// The kind of a command of this number.
fn cmd_kind_of(number: u8) -> Option<CmdKind>
    ensures { result ≡ kind_in cmd_kinds cmd_number number }
{
    match number {
        1 => Some(CmdKind::Op(OpKind::Create)),
        2 => Some(CmdKind::Op(OpKind::Delete)),
        3 => Some(CmdKind::Op(OpKind::SetData)),
        4 => Some(CmdKind::SetAcl),
        5 => Some(CmdKind::Op(OpKind::Check)),
        6 => Some(CmdKind::Auth),
        7 => Some(CmdKind::Multi),
        8 => Some(CmdKind::Sync),
        9 => Some(CmdKind::CloseSession),
        _ => None,
    }
}

// Reads the fields of a command of this kind.
fn cmd_of_kind(alloc: Global, reader: &mut Reader<'_>, kind: CmdKind) -> Result<Cmd, JuteFail>
    ensures { Gives (λ c. c) result reader.new (cmd_in kind reader.old) }
{
    match kind {
        CmdKind::Op(kind) => operation(alloc, reader, kind),
        CmdKind::SetAcl => acl_setting(alloc, reader),
        CmdKind::Auth => auth(alloc, reader),
        CmdKind::Multi => multi(alloc, reader),
        CmdKind::Sync => sync(alloc, reader),
        CmdKind::CloseSession => close_session(reader),
    }
}

#[tactic(auto, unfolding(crate::specs::Commands::cmd_in, crate::specs::Commands::op_in))]
fn operation(alloc: Global, reader: &mut Reader<'_>, kind: OpKind) -> Result<Cmd, JuteFail>
    ensures { Gives (λ c. c) result reader.new (cmd_in (cmd_tag.Op kind) reader.old) }
{
    let op = op_of_kind(alloc, reader, kind)?;
    Ok(cmd_from(op))
}

#[tactic(auto, unfolding(crate::specs::Commands::cmd_in))]
fn acl_setting(alloc: Global, reader: &mut Reader<'_>) -> Result<Cmd, JuteFail>
    ensures { Gives (λ c. c) result reader.new (cmd_in cmd_tag.SetAcl reader.old) }
{
    let path = read_text(alloc, reader)?;
    let acl = read_list(alloc, reader)?;
    let version = reader.unsigned_int()?;
    Ok(Cmd::SetAcl { path, acl, version })
}

#[tactic(auto, unfolding(crate::specs::Commands::cmd_in))]
fn auth(alloc: Global, reader: &mut Reader<'_>) -> Result<Cmd, JuteFail>
    ensures { Gives (λ c. c) result reader.new (cmd_in cmd_tag.Auth reader.old) }
{
    let scheme = read_text(alloc, reader)?;
    let auth = read_bytes(alloc, reader)?;
    Ok(Cmd::Auth { scheme, auth })
}

#[tactic(auto, unfolding(crate::specs::Commands::cmd_in))]
fn multi(alloc: Global, reader: &mut Reader<'_>) -> Result<Cmd, JuteFail>
    ensures { Gives (λ c. c) result reader.new (cmd_in cmd_tag.Multi reader.old) }
{
    let ops = read_list(alloc, reader)?;
    Ok(Cmd::Multi { ops })
}

#[tactic(auto, unfolding(crate::specs::Commands::cmd_in))]
fn sync(alloc: Global, reader: &mut Reader<'_>) -> Result<Cmd, JuteFail>
    ensures { Gives (λ c. c) result reader.new (cmd_in cmd_tag.Sync reader.old) }
{
    let path = read_text(alloc, reader)?;
    Ok(Cmd::Sync { path })
}

#[tactic(auto, unfolding(crate::specs::Commands::cmd_in))]
fn close_session(reader: &mut Reader<'_>) -> Result<Cmd, JuteFail>
    ensures { Gives (λ c. c) result reader.new (cmd_in cmd_tag.CloseSession reader.old) }
{
    let _place = reader.place();
    Ok(Cmd::CloseSession)
}

// The operation as a command by itself.
fn cmd_from(op: Op) -> Cmd
    ensures { result ≡ cmd_of op }
{
    match op {
        Op::Create {
            path,
            bytes,
            acl,
            flags,
            stat,
        } => Cmd::Create {
            path,
            bytes,
            acl,
            flags,
            stat,
        },
        Op::Delete { path, version } => Cmd::Delete { path, version },
        Op::SetData {
            path,
            bytes,
            version,
        } => Cmd::SetData {
            path,
            bytes,
            version,
        },
        Op::Check { path, version } => Cmd::Check { path, version },
    }
}

/// Reads an operation of a multi: its kind and the fields of the kind.
#[tactic(auto, unfolding(crate::specs::Commands::op_in))]
pub fn read_op(alloc: Global, reader: &mut Reader<'_>) -> Result<Op, JuteFail>
    ensures { Gives (λ o. o) result reader.new (ops.read reader.old) }
{
    let kind = op_kind(reader)?;
    op_of_kind(alloc, reader, kind)
}

fn op_kind(reader: &mut Reader<'_>) -> Result<OpKind, JuteFail>
    ensures { Gives (λ k. k) result reader.new ((kinds op_kinds op_number).read reader.old) }
{
    let at = reader.place();
    let number = read_byte(reader)?;
    match op_kind_of(number) {
        Some(kind) => Ok(kind),
        None => Err(JuteFail::BadByte { at }),
    }
}

// The kind of an operation of this number.
fn op_kind_of(number: u8) -> Option<OpKind>
    ensures { result ≡ kind_in op_kinds op_number number }
{
    match number {
        1 => Some(OpKind::Create),
        2 => Some(OpKind::Delete),
        3 => Some(OpKind::SetData),
        5 => Some(OpKind::Check),
        _ => None,
    }
}

// Reads the fields of an operation of this kind.
fn op_of_kind(alloc: Global, reader: &mut Reader<'_>, kind: OpKind) -> Result<Op, JuteFail>
    ensures { Gives (λ o. o) result reader.new (op_in kind reader.old) }
{
    match kind {
        OpKind::Create => creation(alloc, reader),
        OpKind::Delete => deletion(alloc, reader),
        OpKind::SetData => setting(alloc, reader),
        OpKind::Check => check(alloc, reader),
    }
}

#[tactic(auto, unfolding(crate::specs::Commands::op_in))]
fn creation(alloc: Global, reader: &mut Reader<'_>) -> Result<Op, JuteFail>
    ensures { Gives (λ o. o) result reader.new (op_in op_tag.Create reader.old) }
{
    let path = read_text(alloc, reader)?;
    let bytes = read_bytes(alloc, reader)?;
    let acl = read_list(alloc, reader)?;
    let flags = reader.unsigned_int()?;
    let stat = reader.boolean()?;
    Ok(Op::Create {
        path,
        bytes,
        acl,
        flags,
        stat,
    })
}

#[tactic(auto, unfolding(crate::specs::Commands::op_in))]
fn deletion(alloc: Global, reader: &mut Reader<'_>) -> Result<Op, JuteFail>
    ensures { Gives (λ o. o) result reader.new (op_in op_tag.Delete reader.old) }
{
    let path = read_text(alloc, reader)?;
    let version = reader.unsigned_int()?;
    Ok(Op::Delete { path, version })
}

#[tactic(auto, unfolding(crate::specs::Commands::op_in))]
fn setting(alloc: Global, reader: &mut Reader<'_>) -> Result<Op, JuteFail>
    ensures { Gives (λ o. o) result reader.new (op_in op_tag.SetData reader.old) }
{
    let path = read_text(alloc, reader)?;
    let bytes = read_bytes(alloc, reader)?;
    let version = reader.unsigned_int()?;
    Ok(Op::SetData {
        path,
        bytes,
        version,
    })
}

#[tactic(auto, unfolding(crate::specs::Commands::op_in))]
fn check(alloc: Global, reader: &mut Reader<'_>) -> Result<Op, JuteFail>
    ensures { Gives (λ o. o) result reader.new (op_in op_tag.Check reader.old) }
{
    let path = read_text(alloc, reader)?;
    let version = reader.unsigned_int()?;
    Ok(Op::Check { path, version })
}
