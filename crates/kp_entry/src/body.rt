//! Reading entries.

ghost use Rattle.std.specs.Prelude.{◌≡◌, IfOk, IsTrue};
ghost use Rattle.kp_jute.specs.Form.{Gives};
ghost use Rattle.kp_model.specs.Grammar.{is_body};
ghost use Rattle.kp_entry.specs.declared.kinds.BodyKind.TheVariants as body_tag;
ghost use Rattle.kp_entry.specs.Fields.{kinds, kind_in};
ghost use Rattle.kp_entry.specs.Entries.{body_kinds, body_number, body_in, bodies, entries};

use crate::command::read_cmd;
use crate::fields::{read_byte, read_number, read_origin, read_password, read_timeout};
use crate::kinds::BodyKind;
use kp_jute::{JuteFail, Reader};
use kp_model::{Body, Entry};
use std::alloc::Global;

/// Reads an entry: its term, its time and what it asks for. A reader of which one is refused is to be dropped: it may
/// stand behind some of its fields.
pub fn read_entry(alloc: Global, reader: &mut Reader<'_>) -> Result<Entry, JuteFail>
    ensures { Gives (λ e. e) result reader.new (entries.read reader.old) }
{
    let term = read_number(reader)?;
    let time = read_number(reader)?;
    let body = body(alloc, reader)?;
    match Entry::new(term, time, body) {
        Ok(entry) => Ok(entry),
        Err(_) => Err(JuteFail::NoMemory),
    }
}

// Reads what an entry asks for: its kind and the fields of the kind.
#[tactic(auto, unfolding(crate::specs::Entries::body_in))]
fn body(alloc: Global, reader: &mut Reader<'_>) -> Result<Body, JuteFail>
    ensures read { Gives (λ b. b) result reader.new (bodies.read reader.old) }
    ensures range { IfOk result (λ b. IsTrue (is_body b)) }
{
    let kind = body_kind(reader)?;
    body_of_kind(alloc, reader, kind)
}

fn body_kind(reader: &mut Reader<'_>) -> Result<BodyKind, JuteFail>
    ensures { Gives (λ k. k) result reader.new ((kinds body_kinds body_number).read reader.old) }
{
    let at = reader.place();
    let number = read_byte(reader)?;
    match body_kind_of(number) {
        Some(kind) => Ok(kind),
        None => Err(JuteFail::BadByte { at }),
    }
}

// The kind of an entry of this number.
fn body_kind_of(number: u8) -> Option<BodyKind>
    ensures { result ≡ kind_in body_kinds body_number number }
{
    match number {
        0 => Some(BodyKind::Noop),
        1 => Some(BodyKind::OpenSession),
        2 => Some(BodyKind::Attach),
        3 => Some(BodyKind::Expire),
        4 => Some(BodyKind::Write),
        _ => None,
    }
}

// Reads the fields of an entry of this kind.
fn body_of_kind(alloc: Global, reader: &mut Reader<'_>, kind: BodyKind) -> Result<Body, JuteFail>
    ensures read { Gives (λ b. b) result reader.new (body_in kind reader.old) }
    ensures range { IfOk result (λ b. IsTrue (is_body b)) }
{
    match kind {
        BodyKind::Noop => noop(reader),
        BodyKind::OpenSession => opening(reader),
        BodyKind::Attach => attachment(reader),
        BodyKind::Expire => expiry(reader),
        BodyKind::Write => write(alloc, reader),
    }
}

#[tactic(auto, unfolding(crate::specs::Entries::body_in))]
fn noop(reader: &mut Reader<'_>) -> Result<Body, JuteFail>
    ensures read { Gives (λ b. b) result reader.new (body_in body_tag.Noop reader.old) }
    ensures range { IfOk result (λ b. IsTrue (is_body b)) }
{
    let _place = reader.place();
    Ok(Body::Noop)
}

#[tactic(auto, unfolding(crate::specs::Entries::body_in))]
fn opening(reader: &mut Reader<'_>) -> Result<Body, JuteFail>
    ensures read { Gives (λ b. b) result reader.new (body_in body_tag.OpenSession reader.old) }
    ensures range { IfOk result (λ b. IsTrue (is_body b)) }
{
    let timeout = read_timeout(reader)?;
    let passwd = read_password(reader)?;
    let origin = read_origin(reader)?;
    Ok(Body::OpenSession {
        timeout,
        passwd,
        origin,
    })
}

#[tactic(auto, unfolding(crate::specs::Entries::body_in))]
fn attachment(reader: &mut Reader<'_>) -> Result<Body, JuteFail>
    ensures read { Gives (λ b. b) result reader.new (body_in body_tag.Attach reader.old) }
    ensures range { IfOk result (λ b. IsTrue (is_body b)) }
{
    let session = read_number(reader)?;
    let passwd = read_password(reader)?;
    let origin = read_origin(reader)?;
    Ok(Body::Attach {
        session,
        passwd,
        origin,
    })
}

#[tactic(auto, unfolding(crate::specs::Entries::body_in))]
fn expiry(reader: &mut Reader<'_>) -> Result<Body, JuteFail>
    ensures read { Gives (λ b. b) result reader.new (body_in body_tag.Expire reader.old) }
    ensures range { IfOk result (λ b. IsTrue (is_body b)) }
{
    let session = read_number(reader)?;
    Ok(Body::Expire { session })
}

#[tactic(auto, unfolding(crate::specs::Entries::body_in))]
fn write(alloc: Global, reader: &mut Reader<'_>) -> Result<Body, JuteFail>
    ensures read { Gives (λ b. b) result reader.new (body_in body_tag.Write reader.old) }
    ensures range { IfOk result (λ b. IsTrue (is_body b)) }
{
    let session = read_number(reader)?;
    let epoch = read_number(reader)?;
    let seq = read_number(reader)?;
    let cmd = read_cmd(alloc, reader)?;
    Ok(Body::Write {
        session,
        epoch,
        seq,
        cmd,
    })
}
