//! Looking whether bytes are an image.

ghost use Rattle.std.specs.Prelude.{◌≡◌, [], ◌++◌, ◌∷◌, length, IfOk, IsTrue};
ghost use Rattle.kp_jute.specs.Form.{Gives, IsBytes, whole};
ghost use Rattle.kp_model.specs.Grammar.{is_number};
ghost use Rattle.kp_snapshot.specs.Rules.{Placed};
ghost use Rattle.kp_snapshot.specs.Images.{marks, mark, nexts, tables, nodes, node_behind, parts};
ghost use Rattle.kp_snapshot.specs.Snapshots.{images};
ghost use Rattle.kp_snapshot.specs.Rows.{rows_at};
ghost use Rattle.kp_snapshot.specs.Ups.{AreRising};
ghost use Rattle.kp_snapshot.specs.Knowing.{Finds, Tells, Stand};

use crate::nodes::read_node;
use crate::sessions::check_sessions;
use crate::trail::Trail;
use kp_entry::read_number;
use kp_jute::{JuteFail, Reader};
use std::alloc::Global;

/// The index and the term of an image.
#[derive(Clone, Copy)]
pub(crate) struct Head {
    pub(crate) index: u64,
    pub(crate) term: u64,
}

/// Looks whether the bytes are an image and nothing more; answers its index and its term.
pub(crate) fn check(alloc: Global, bytes: &[u8]) -> Result<Head, JuteFail>
    ensures read { Tells (λ h s. (s.state.applied ≡ h.index) × (s.term ≡ h.term)) result (whole images bytes.now) }
    ensures bytes { IsBytes bytes.now }
{
    let mut reader = Reader::new(bytes);
    let head = check_parts(alloc, &mut reader)?;
    reader.end()?;
    Ok(head)
}

// Reads an image.
fn check_parts(alloc: Global, reader: &mut Reader<'_>) -> Result<Head, JuteFail>
    ensures { Finds (λ h t. (t.1.0 ≡ h.index) × (t.1.1.0 ≡ h.term)) result reader.new (parts.read reader.old) }
{
    read_mark(reader)?;
    let index = read_number(reader)?;
    let term = read_number(reader)?;
    let next = read_next(reader)?;
    check_tables(alloc, reader, index, next)?;
    Ok(Head { index, term })
}

// Reads the sessions and the nodes.
fn check_tables(
    alloc: Global,
    reader: &mut Reader<'_>,
    index: u64,
    next: u64,
) -> Result<(), JuteFail>
    ensures { Finds (λ _ _. Unit {0}) result reader.new ((tables index next).read reader.old) }
{
    let known = check_sessions(alloc, reader, next)?;
    let answer = check_nodes(alloc, reader, index, known.ids());
    drop(known);
    answer
}

/// Reads the mark of an image.
pub(crate) fn read_mark(reader: &mut Reader<'_>) -> Result<(), JuteFail>
    ensures { Gives (λ _. mark) result reader.new (marks.read reader.old) }
{
    let at = reader.place();
    let bytes = reader.take(4)?;
    if bytes != b"KPI1".as_slice() {
        return Err(JuteFail::BadByte { at });
    }
    Ok(())
}

/// Reads the number that the next session gets, which is at least 1.
pub(crate) fn read_next(reader: &mut Reader<'_>) -> Result<u64, JuteFail>
    ensures read { Gives (λ n. n) result reader.new (nexts.read reader.old) }
    ensures range { IfOk result (λ n. IsTrue (is_number n)) }
{
    let at = reader.place();
    let next = read_number(reader)?;
    if next < 1 {
        return Err(JuteFail::BadByte { at });
    }
    Ok(next)
}

// Reads the nodes, behind their count. No nodes are refused at the count.
fn check_nodes(
    alloc: Global,
    reader: &mut Reader<'_>,
    index: u64,
    ids: &[u64],
) -> Result<(), JuteFail>
    requires { AreRising ids.now }
    ensures { Finds (λ _ _. Unit {0}) result reader.new ((nodes index ids.now).read reader.old) }
{
    let at = reader.place();
    let count = reader.unsigned_int()?;
    check_each(alloc, reader, count, index, ids)?;
    if count == 0 {
        return Err(JuteFail::BadByte { at });
    }
    Ok(())
}

// Reads so many nodes behind none.
fn check_each(
    alloc: Global,
    reader: &mut Reader<'_>,
    count: u32,
    index: u64,
    ids: &[u64],
) -> Result<(), JuteFail>
    requires { AreRising ids.now }
    ensures { Finds (λ _ ns. length ns ≡ count) result reader.new (rows_at (λ before. (node_behind index ids.now before).read) count [] reader.old) }
{
    let mut trail = Trail::new(alloc);
    for _ in 0..count {
        let found = read_node(alloc, reader, &mut trail, index, ids)?;
        drop(found);
    }
    Ok(())
}
