//! Writing commands. Each call that answers Ok was given a value that the format has, and added exactly its spelling.

ghost use Rattle.std.specs.Prelude.{◌≡◌, OnOk};
ghost use Rattle.kp_jute.specs.Form.{Wrote};
ghost use Rattle.kp_entry.specs.Commands.{creations, versioned, settings, acl_settings, auths, ops, cmds};

use crate::command::read_op;
use crate::list::{Item, put_list};
use crate::put_fields::{put_byte, put_bytes, put_flag, put_text, put_word};
use kp_jute::{JuteFail, Reader};
use kp_model::{Acls, Bytes, Cmd, NoMemory, Op, Text};
use std::alloc::Global;

/// Writes a command: its kind and the fields of the kind.
#[tactic(auto, using(crate::proofs::CommandWrites::close_written))]
pub fn put_cmd(out: &mut Vec<u8>, cmd: &Cmd) -> Result<(), NoMemory>
    ensures { OnOk result (Wrote cmds cmd.now out.old.items out.new.items) }
{
    match cmd {
        Cmd::Create {
            path,
            bytes,
            acl,
            flags,
            stat,
        } => {
            put_byte(out, 1)?;
            put_creation(out, path, bytes, acl, *flags, *stat)
        }
        Cmd::Delete { path, version } => {
            put_byte(out, 2)?;
            put_versioned(out, path, *version)
        }
        Cmd::SetData {
            path,
            bytes,
            version,
        } => {
            put_byte(out, 3)?;
            put_setting(out, path, bytes, *version)
        }
        Cmd::SetAcl { path, acl, version } => {
            put_byte(out, 4)?;
            put_acl_setting(out, path, acl, *version)
        }
        Cmd::Check { path, version } => {
            put_byte(out, 5)?;
            put_versioned(out, path, *version)
        }
        Cmd::Auth { scheme, auth } => {
            put_byte(out, 6)?;
            put_auth(out, scheme, auth)
        }
        Cmd::Multi { ops } => {
            put_byte(out, 7)?;
            put_list(out, ops)
        }
        Cmd::Sync { path } => {
            put_byte(out, 8)?;
            put_text(out, path)
        }
        Cmd::CloseSession => put_byte(out, 9),
    }
}

impl Item for Op {
    ghost use Rattle.kp_entry.specs.Commands.{ops};

    ghost form = { ops };

    fn read(alloc: Global, reader: &mut Reader<'_>) -> Result<Op, JuteFail> {
        read_op(alloc, reader)
    }

    fn write(&self, out: &mut Vec<u8>) -> Result<(), NoMemory> {
        put_op(out, self)
    }
}

// Writes an operation of a multi: its kind and the fields of the kind.
fn put_op(out: &mut Vec<u8>, op: &Op) -> Result<(), NoMemory>
    ensures { OnOk result (Wrote ops op.now out.old.items out.new.items) }
{
    match op {
        Op::Create {
            path,
            bytes,
            acl,
            flags,
            stat,
        } => {
            put_byte(out, 1)?;
            put_creation(out, path, bytes, acl, *flags, *stat)
        }
        Op::Delete { path, version } => {
            put_byte(out, 2)?;
            put_versioned(out, path, *version)
        }
        Op::SetData {
            path,
            bytes,
            version,
        } => {
            put_byte(out, 3)?;
            put_setting(out, path, bytes, *version)
        }
        Op::Check { path, version } => {
            put_byte(out, 5)?;
            put_versioned(out, path, *version)
        }
    }
}

// Writes the fields of a creation.
fn put_creation(
    out: &mut Vec<u8>,
    path: &Text,
    bytes: &Bytes,
    acl: &Acls,
    flags: u32,
    stat: bool,
) -> Result<(), NoMemory>
    ensures { OnOk result (Wrote creations (path.now, (bytes.now, (acl.now, (flags, stat)))) out.old.items out.new.items) }
{
    put_text(out, path)?;
    put_bytes(out, bytes.as_slice())?;
    put_list(out, acl)?;
    put_word(out, flags)?;
    put_flag(out, stat)
}

// Writes a path and a version.
fn put_versioned(out: &mut Vec<u8>, path: &Text, version: u32) -> Result<(), NoMemory>
    ensures { OnOk result (Wrote versioned (path.now, version) out.old.items out.new.items) }
{
    put_text(out, path)?;
    put_word(out, version)
}

// Writes a path, its data and a version.
fn put_setting(out: &mut Vec<u8>, path: &Text, bytes: &Bytes, version: u32) -> Result<(), NoMemory>
    ensures { OnOk result (Wrote settings (path.now, (bytes.now, version)) out.old.items out.new.items) }
{
    put_text(out, path)?;
    put_bytes(out, bytes.as_slice())?;
    put_word(out, version)
}

// Writes a path, its access list and a version.
fn put_acl_setting(out: &mut Vec<u8>, path: &Text, acl: &Acls, version: u32) -> Result<(), NoMemory>
    ensures { OnOk result (Wrote acl_settings (path.now, (acl.now, version)) out.old.items out.new.items) }
{
    put_text(out, path)?;
    put_list(out, acl)?;
    put_word(out, version)
}

// Writes a scheme and what is shown.
fn put_auth(out: &mut Vec<u8>, scheme: &Text, auth: &Bytes) -> Result<(), NoMemory>
    ensures { OnOk result (Wrote auths (scheme.now, auth.now) out.old.items out.new.items) }
{
    put_text(out, scheme)?;
    put_bytes(out, auth.as_slice())
}
