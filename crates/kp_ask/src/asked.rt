//! What a request asks: a command that goes through the log, a question about the committed state, or neither.

ghost use Rattle.std.specs.Prelude.{◌≡◌, Some, map, IfOk};
ghost use Rattle.kp_model.specs.declared.command.Cmd.TheVariants as cmd;
ghost use Rattle.kp_ask.specs.Given.{given, given_acls as given_lines};
ghost use Rattle.kp_ask.specs.Asks.{op_of as op_in, command as command_in, question as question_in, wants_watch as watch_in};

use crate::given::{given_acls, given_bytes, given_text};
use crate::parts::each_op;
use kp_model::{Bytes, Cmd, NoMemory, ReadCmd, Text};
use kp_wire::{WireAcls, WireAsk, WireOp};
use std::alloc::Global;

/// The command that a request asks for: one of the writes, or a check, an auth, a sync or the end of the session,
/// which go through the log as they do. None where it asks for no command.
#[tactic(auto, unfolding(crate::specs::Asks::command))]
pub fn command(alloc: Global, ask: &WireAsk) -> Result<Option<Cmd>, NoMemory>
    ensures { IfOk result (λ asked. asked ≡ command_in ask.now) }
{
    match ask {
        WireAsk::Create {
            path,
            bytes,
            acl,
            flags,
        } => creation(alloc, path, bytes, acl, *flags, false),
        WireAsk::Create2 {
            path,
            bytes,
            acl,
            flags,
        } => creation(alloc, path, bytes, acl, *flags, true),
        WireAsk::Delete { path, version } => removal(alloc, path, *version),
        WireAsk::SetData {
            path,
            bytes,
            version,
        } => setting(alloc, path, bytes, *version),
        WireAsk::SetAcl { path, acl, version } => acl_setting(alloc, path, acl, *version),
        WireAsk::Sync { path } => sync(alloc, path),
        WireAsk::Check { path, version } => check(alloc, path, *version),
        WireAsk::Multi { ops } => multi(alloc, ops.as_slice()),
        WireAsk::Auth { scheme, auth, .. } => showing(alloc, scheme, auth),
        WireAsk::CloseSession => Ok(Some(Cmd::CloseSession)),
        _ => Ok(None),
    }
}

/// The question that a request asks. None where it asks none.
#[tactic(auto, unfolding(crate::specs::Asks::question))]
pub fn question(alloc: Global, ask: &WireAsk) -> Result<Option<ReadCmd>, NoMemory>
    ensures { IfOk result (λ asked. asked ≡ question_in ask.now) }
{
    match ask {
        WireAsk::Exists { path, .. } => Ok(Some(ReadCmd::Exists {
            path: given_text(alloc, path)?,
        })),
        WireAsk::GetData { path, .. } => Ok(Some(ReadCmd::GetData {
            path: given_text(alloc, path)?,
        })),
        WireAsk::GetAcl { path } => Ok(Some(ReadCmd::GetAcl {
            path: given_text(alloc, path)?,
        })),
        WireAsk::GetChildren { path, .. } => Ok(Some(ReadCmd::GetChildren {
            path: given_text(alloc, path)?,
        })),
        WireAsk::GetChildren2 { path, .. } => Ok(Some(ReadCmd::GetChildren {
            path: given_text(alloc, path)?,
        })),
        _ => Ok(None),
    }
}

/// Whether a request asks for a watch on its path.
#[tactic(auto, unfolding(crate::specs::Asks::wants_watch))]
pub fn wants_watch(ask: &WireAsk) -> bool
    ensures { result ≡ watch_in ask.now }
{
    match ask {
        WireAsk::Exists { watch, .. } => *watch,
        WireAsk::GetData { watch, .. } => *watch,
        WireAsk::GetChildren { watch, .. } => *watch,
        WireAsk::GetChildren2 { watch, .. } => *watch,
        _ => false,
    }
}

fn creation(
    alloc: Global,
    path: &Option<Text>,
    bytes: &Option<Bytes>,
    acl: &Option<WireAcls>,
    flags: u32,
    stat: bool,
) -> Result<Option<Cmd>, NoMemory>
    ensures { IfOk result (λ asked. asked ≡ Some (cmd.Create (given path.now) (given bytes.now) (given_lines acl.now) flags stat)) }
{
    Ok(Some(Cmd::Create {
        path: given_text(alloc, path)?,
        bytes: given_bytes(alloc, bytes)?,
        acl: given_acls(alloc, acl)?,
        flags,
        stat,
    }))
}

fn removal(alloc: Global, path: &Option<Text>, version: u32) -> Result<Option<Cmd>, NoMemory>
    ensures { IfOk result (λ asked. asked ≡ Some (cmd.Delete (given path.now) version)) }
{
    Ok(Some(Cmd::Delete {
        path: given_text(alloc, path)?,
        version,
    }))
}

fn setting(
    alloc: Global,
    path: &Option<Text>,
    bytes: &Option<Bytes>,
    version: u32,
) -> Result<Option<Cmd>, NoMemory>
    ensures { IfOk result (λ asked. asked ≡ Some (cmd.SetData (given path.now) (given bytes.now) version)) }
{
    Ok(Some(Cmd::SetData {
        path: given_text(alloc, path)?,
        bytes: given_bytes(alloc, bytes)?,
        version,
    }))
}

fn acl_setting(
    alloc: Global,
    path: &Option<Text>,
    acl: &Option<WireAcls>,
    version: u32,
) -> Result<Option<Cmd>, NoMemory>
    ensures { IfOk result (λ asked. asked ≡ Some (cmd.SetAcl (given path.now) (given_lines acl.now) version)) }
{
    Ok(Some(Cmd::SetAcl {
        path: given_text(alloc, path)?,
        acl: given_acls(alloc, acl)?,
        version,
    }))
}

fn sync(alloc: Global, path: &Option<Text>) -> Result<Option<Cmd>, NoMemory>
    ensures { IfOk result (λ asked. asked ≡ Some (cmd.Sync (given path.now))) }
{
    Ok(Some(Cmd::Sync {
        path: given_text(alloc, path)?,
    }))
}

fn check(alloc: Global, path: &Option<Text>, version: u32) -> Result<Option<Cmd>, NoMemory>
    ensures { IfOk result (λ asked. asked ≡ Some (cmd.Check (given path.now) version)) }
{
    Ok(Some(Cmd::Check {
        path: given_text(alloc, path)?,
        version,
    }))
}

fn multi(alloc: Global, ops: &[WireOp]) -> Result<Option<Cmd>, NoMemory>
    ensures { IfOk result (λ asked. asked ≡ Some (cmd.Multi (map op_in ops.now))) }
{
    Ok(Some(Cmd::Multi {
        ops: each_op(alloc, ops)?,
    }))
}

fn showing(
    alloc: Global,
    scheme: &Option<Text>,
    auth: &Option<Bytes>,
) -> Result<Option<Cmd>, NoMemory>
    ensures { IfOk result (λ asked. asked ≡ Some (cmd.Auth (given scheme.now) (given auth.now))) }
{
    Ok(Some(Cmd::Auth {
        scheme: given_text(alloc, scheme)?,
        auth: given_bytes(alloc, auth)?,
    }))
}
