//! Reading the sessions of an image.

ghost use Rattle.std.specs.Prelude.{◌≡◌, [], IfOk, IsTrue};
ghost use Rattle.kp_jute.specs.Form.{Gives};
ghost use Rattle.kp_entry.specs.Fields.{limited, numbers, origins};
ghost use Rattle.kp_snapshot.specs.Rules.{Numbered, numbers_of, holders_of, may_be_number, is_new_holder};
ghost use Rattle.kp_snapshot.specs.Images.{claims, session_behind, sessions};
ghost use Rattle.kp_snapshot.specs.Rows.{rows_at};
ghost use Rattle.kp_snapshot.specs.Knowing.{Finds, knowing, knowing_more};

use crate::known::Known;
use kp_entry::{read_list, read_number, read_origin, read_password, read_timeout};
use kp_jute::{JuteFail, Reader};
use kp_model::{Origin, Paths, Session};
use std::alloc::Global;

/// Reads the sessions of an image, behind their count. Memory is taken for what is there, whatever the count says.
pub(crate) fn check_sessions(
    alloc: Global,
    reader: &mut Reader<'_>,
    next: u64,
) -> Result<Known, JuteFail>
    ensures { Finds (λ k ss. k ≡ knowing next ss) result reader.new ((sessions next).read reader.old) }
{
    let count = reader.unsigned_int()?;
    let mut known = Known::new(alloc, next);
    match check_each(alloc, reader, count, &mut known) {
        Ok(()) => Ok(known),
        Err(fail) => {
            drop(known);
            Err(fail)
        }
    }
}

// Reads so many sessions behind none.
fn check_each(
    alloc: Global,
    reader: &mut Reader<'_>,
    count: u32,
    known: &mut Known,
) -> Result<(), JuteFail>
    requires { known.old ≡ knowing known.old.next [] }
    ensures { Finds (λ _ ss. known.new ≡ knowing known.old.next ss) result reader.new (rows_at (λ before. (session_behind known.old.next (numbers_of before) (holders_of before)).read) count [] reader.old) }
{
    for _ in 0..count {
        check_session(alloc, reader, known)?;
    }
    Ok(())
}

// Reads the next session.
fn check_session(alloc: Global, reader: &mut Reader<'_>, known: &mut Known) -> Result<(), JuteFail>
    ensures { Finds (λ _ s. known.new ≡ knowing_more known.old s) result reader.new ((session_behind known.old.next known.old.ids known.old.holders).read reader.old) }
{
    let (id, session) = read_session(alloc, reader, known)?;
    let holder = session.holder;
    drop(session);
    match known.add(id, holder) {
        Ok(()) => Ok(()),
        Err(_) => Err(JuteFail::NoMemory),
    }
}

/// Reads the next session: its number, what a client shows, its holder and its ids. A reader of which one is refused is to
/// be dropped.
pub(crate) fn read_session(
    alloc: Global,
    reader: &mut Reader<'_>,
    known: &Known,
) -> Result<(u64, Session), JuteFail>
    ensures read { Gives (λ s. s) result reader.new ((session_behind known.now.next known.now.ids known.now.holders).read reader.old) }
    ensures may { IfOk result (λ s. IsTrue (may_be_number known.now.next known.now.ids s.0)) }
{
    let id = read_id(reader, known)?;
    let (timeout, passwd, epoch, seq) = read_claims(reader)?;
    let holder = read_holder(reader, known)?;
    let ids: Paths = read_list(alloc, reader)?;
    Ok((
        id,
        Session {
            timeout,
            passwd,
            epoch,
            seq,
            ids,
            holder,
        },
    ))
}

fn read_id(reader: &mut Reader<'_>, known: &Known) -> Result<u64, JuteFail>
    ensures read { Gives (λ n. n) result reader.new ((limited (may_be_number known.now.next known.now.ids) numbers).read reader.old) }
    ensures may { IfOk result (λ n. IsTrue (may_be_number known.now.next known.now.ids n)) }
{
    let at = reader.place();
    let id = read_number(reader)?;
    if !known.may_be_number(id) {
        return Err(JuteFail::BadByte { at });
    }
    Ok(id)
}

// Reads timeout, password, epoch and running number.
fn read_claims(reader: &mut Reader<'_>) -> Result<(u32, [u8; 16], u64, u64), JuteFail>
    ensures { Gives (λ t. (t.0, (t.1, (t.2, t.3)))) result reader.new (claims.read reader.old) }
{
    let timeout = read_timeout(reader)?;
    let passwd = read_password(reader)?;
    let epoch = read_number(reader)?;
    let seq = read_number(reader)?;
    Ok((timeout, passwd, epoch, seq))
}

fn read_holder(reader: &mut Reader<'_>, known: &Known) -> Result<Origin, JuteFail>
    ensures { Gives (λ o. o) result reader.new ((limited (is_new_holder known.now.holders) origins).read reader.old) }
{
    let at = reader.place();
    let holder = read_origin(reader)?;
    if !known.is_new(&holder) {
        return Err(JuteFail::BadByte { at });
    }
    Ok(holder)
}
