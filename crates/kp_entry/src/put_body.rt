//! Writing entries. Each call that answers Ok was given a value that the format has, and added exactly its spelling.

ghost use Rattle.std.specs.Prelude.{◌≡◌, length, OnOk};
ghost use Rattle.kp_jute.specs.Form.{Wrote};
ghost use Rattle.kp_entry.specs.Entries.{openings, attachments, writes, bodies, entries};

use crate::put_command::put_cmd;
use crate::put_fields::{put_byte, put_number, put_origin, put_password, put_timeout};
use kp_model::{Body, Cmd, Entry, NoMemory, Origin};

/// Writes an entry: its term, its time and what it asks for.
pub fn put_entry(out: &mut Vec<u8>, entry: &Entry) -> Result<(), NoMemory>
    ensures { OnOk result (Wrote entries entry.now out.old.items out.new.items) }
{
    put_number(out, entry.term)?;
    put_number(out, entry.time)?;
    put_body(out, &entry.body)
}

// Writes what an entry asks for: its kind and the fields of the kind.
#[tactic(auto, using(crate::proofs::BodyWrites::noop_written))]
fn put_body(out: &mut Vec<u8>, body: &Body) -> Result<(), NoMemory>
    ensures { OnOk result (Wrote bodies body.now out.old.items out.new.items) }
{
    match body {
        Body::Noop => put_byte(out, 0),
        Body::OpenSession {
            timeout,
            passwd,
            origin,
        } => {
            put_byte(out, 1)?;
            put_opening(out, *timeout, passwd, *origin)
        }
        Body::Attach {
            session,
            passwd,
            origin,
        } => {
            put_byte(out, 2)?;
            put_attachment(out, *session, passwd, *origin)
        }
        Body::Expire { session } => {
            put_byte(out, 3)?;
            put_number(out, *session)
        }
        Body::Write {
            session,
            epoch,
            seq,
            cmd,
        } => {
            put_byte(out, 4)?;
            put_write(out, *session, *epoch, *seq, cmd)
        }
    }
}

fn put_opening(
    out: &mut Vec<u8>,
    timeout: u32,
    passwd: &[u8],
    origin: Origin,
) -> Result<(), NoMemory>
    requires { length passwd.now ≡ 16 }
    ensures { OnOk result (Wrote openings (timeout, (passwd.now, origin)) out.old.items out.new.items) }
{
    put_timeout(out, timeout)?;
    put_password(out, passwd)?;
    put_origin(out, origin)
}

fn put_attachment(
    out: &mut Vec<u8>,
    session: u64,
    passwd: &[u8],
    origin: Origin,
) -> Result<(), NoMemory>
    requires { length passwd.now ≡ 16 }
    ensures { OnOk result (Wrote attachments (session, (passwd.now, origin)) out.old.items out.new.items) }
{
    put_number(out, session)?;
    put_password(out, passwd)?;
    put_origin(out, origin)
}

fn put_write(
    out: &mut Vec<u8>,
    session: u64,
    epoch: u64,
    seq: u64,
    cmd: &Cmd,
) -> Result<(), NoMemory>
    ensures { OnOk result (Wrote writes (session, (epoch, (seq, cmd.now))) out.old.items out.new.items) }
{
    put_number(out, session)?;
    put_number(out, epoch)?;
    put_number(out, seq)?;
    put_cmd(out, cmd)
}
