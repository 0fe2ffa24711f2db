//! Pouring the sessions of an image.

ghost use Rattle.std.specs.Prelude.{◌≡◌, []};
ghost use Rattle.kp_model.specs.Poured.{with_session};
ghost use Rattle.kp_snapshot.specs.Images.{session_behind, sessions};
ghost use Rattle.kp_snapshot.specs.Knowing.{knowing, knowing_more};
ghost use Rattle.kp_snapshot.specs.Filled.{Gets, with_sessions};
ghost use Rattle.kp_snapshot.specs.Rows.{rows_at};
ghost use Rattle.kp_snapshot.specs.Rules.{numbers_of, holders_of};

use crate::known::Known;
use crate::sessions::read_session;
use kp_jute::{JuteFail, Reader};
use kp_model::Fill;
use std::alloc::Global;

/// Hands the sessions of an image over, behind their count; answers what is known of them.
pub(crate) fn pour_sessions<F: Fill>(
    alloc: Global,
    reader: &mut Reader<'_>,
    next: u64,
    into: &mut F,
) -> Result<Known, JuteFail>
    requires { F.takes into.old }
    ensures set { Gets (λ k ss. (k ≡ knowing next ss) × (F.state into.new ≡ with_sessions (F.state into.old) ss)) result reader.new ((sessions next).read reader.old) }
    ensures may { F.takes into.new }
{
    let count = reader.unsigned_int()?;
    let mut known = Known::new(alloc, next);
    match pour_each(alloc, reader, count, &mut known, into) {
        Ok(()) => Ok(known),
        Err(fail) => {
            drop(known);
            Err(fail)
        }
    }
}

// Hands so many sessions over behind none.
fn pour_each<F: Fill>(
    alloc: Global,
    reader: &mut Reader<'_>,
    count: u32,
    known: &mut Known,
    into: &mut F,
) -> Result<(), JuteFail>
    requires may { F.takes into.old }
    requires none { known.old ≡ knowing known.old.next [] }
    ensures set { Gets (λ _ ss. (known.new ≡ knowing known.old.next ss) × (F.state into.new ≡ with_sessions (F.state into.old) ss)) result reader.new (rows_at (λ before. (session_behind known.old.next (numbers_of before) (holders_of before)).read) count [] reader.old) }
    ensures may { F.takes into.new }
{
    for _ in 0..count {
        pour_session(alloc, reader, known, into)?;
    }
    Ok(())
}

// Hands the next session over.
fn pour_session<F: Fill>(
    alloc: Global,
    reader: &mut Reader<'_>,
    known: &mut Known,
    into: &mut F,
) -> Result<(), JuteFail>
    requires { F.takes into.old }
    ensures set { Gets (λ _ s. (known.new ≡ knowing_more known.old s) × (F.state into.new ≡ with_session (F.state into.old) s.0 s.1)) result reader.new ((session_behind known.old.next known.old.ids known.old.holders).read reader.old) }
    ensures may { F.takes into.new }
{
    let (id, session) = read_session(alloc, reader, known)?;
    let holder = session.holder;
    let put = into.session(id, &session);
    drop(session);
    if put.is_err() {
        return Err(JuteFail::NoMemory);
    }
    match known.add(id, holder) {
        Ok(()) => Ok(()),
        Err(_) => Err(JuteFail::NoMemory),
    }
}
