//! The results of a multi. Each stands behind a mark: a type, the boolean 0 and the int 0. Where the multi failed,
//! each operation has the mark -1, 0 and its error's code, and the code once more. The end is -1, 1, -1.

ghost use Rattle.std.specs.Prelude.{◌≡◌, ◌∷◌, [], Some, None, OnOk};
ghost use Rattle.kp_jute.specs.Form.{Gives, Wrote};
ghost use Rattle.kp_jute.specs.Jute.{ints, untils};
ghost use Rattle.kp_wire.specs.Common.{behind_all};
ghost use Rattle.kp_wire.specs.OpKinds.{op_named, op_number};
ghost use Rattle.kp_wire.specs.OpResults.{op_results, op_replies, lead_named, lead_forms, closed, all_marks, codes, result_steps, failure_steps, multis, held, failed, failure_lists, result_lists};
ghost use Rattle.kp_wire.specs.Replies.{multi_replies};

use crate::field::{read_some_text, write_some_text};
use crate::marked::{Marked, read_marked_behind, write_marked};
use crate::multi::{fixed_boolean, fixed_int};
use crate::op_kind::{OpKind, op_kind_from, op_number};
use crate::reply::WireReply;
use crate::stat::{Stat, read_stat, write_stat};
use kp_jute::{JuteFail, NoMemory, Reader, Writer};
use kp_model::{Items, Text};
use std::alloc::{AllocError, Global};

/// The type of the end mark and of a failure, and the error of the end mark.
const END: i32 = -1;

/// What an operation of a multi is answered.
#[derive(Drop)]
pub enum OpResult {
    /// A delete or a check was done.
    Empty,
    /// The whole path of a new node.
    Path(Text),
    /// The whole path of a new node and its numbers.
    PathStat(Text, Stat),
    /// The numbers of a node that was changed.
    Stat(Stat),
}

/// The type of a mark: that of an operation, or -1.
#[derive(Clone, Copy)]
pub enum Lead {
    Listed(OpKind),
    Closing,
}

/// What a mark says: a result follows, no more follow, or an error follows.
#[derive(Clone, Copy)]
pub enum Mark {
    Listed(OpKind),
    Last,
    Failing,
}

impl Marked for (i32, OpResult) {
    ghost use Rattle.kp_wire.specs.OpResults.{result_steps};

    ghost form = { result_steps };

    fn read_step(
        alloc: Global,
        reader: &mut Reader<'_>,
    ) -> Result<Option<(i32, OpResult)>, JuteFail> {
        let at = reader.place();
        let mark = read_mark(reader)?;
        match mark {
            Mark::Failing => Err(JuteFail::BadByte { at }),
            Mark::Last => {
                fixed_int(reader, END)?;
                Ok(None)
            }
            Mark::Listed(kind) => {
                let result = read_result(alloc, reader, kind)?;
                Ok(Some(numbered(kind, result)))
            }
        }
    }

    fn write_step(&self, writer: &mut Writer) -> Result<(), NoMemory> {
        write_numbered(writer, self)
    }

    fn write_end(writer: &mut Writer) -> Result<(), NoMemory> {
        write_last(writer)
    }
}

impl Marked for i32 {
    ghost use Rattle.kp_wire.specs.OpResults.{failure_steps};

    ghost form = { failure_steps };

    fn read_step(_alloc: Global, reader: &mut Reader<'_>) -> Result<Option<i32>, JuteFail> {
        let at = reader.place();
        let mark = read_mark(reader)?;
        match mark {
            Mark::Listed(_) => Err(JuteFail::BadByte { at }),
            Mark::Last => {
                fixed_int(reader, END)?;
                Ok(None)
            }
            Mark::Failing => {
                let code = read_code(reader)?;
                Ok(Some(code))
            }
        }
    }

    fn write_step(&self, writer: &mut Writer) -> Result<(), NoMemory> {
        write_code(writer, *self)
    }

    fn write_end(writer: &mut Writer) -> Result<(), NoMemory> {
        write_last(writer)
    }
}

fn numbered(kind: OpKind, answer: OpResult) -> (i32, OpResult)
    ensures { result ≡ (op_number kind, answer) }
{
    (op_number(kind), answer)
}

#[tactic(auto, unfolding(crate::specs::OpResults::lead_named))]
fn lead_from(number: i32) -> Option<Lead>
    ensures { result ≡ lead_named number }
{
    if number == END {
        return Some(Lead::Closing);
    }
    match op_kind_from(number) {
        None => None,
        Some(kind) => Some(Lead::Listed(kind)),
    }
}

// Reads the type of a mark.
fn read_lead(reader: &mut Reader<'_>) -> Result<Lead, JuteFail>
    ensures { Gives (λ x. x) result reader.new (lead_forms.read reader.old) }
{
    let at = reader.place();
    match lead_from(reader.int()?) {
        None => Err(JuteFail::BadByte { at }),
        Some(lead) => Ok(lead),
    }
}

// Reads the type of a mark, and behind -1 its boolean.
fn read_mark(reader: &mut Reader<'_>) -> Result<Mark, JuteFail>
    ensures { Gives (λ x. x) result reader.new (all_marks.read reader.old) }
{
    let lead = read_lead(reader)?;
    match lead {
        Lead::Listed(kind) => Ok(Mark::Listed(kind)),
        Lead::Closing => {
            let is_last = reader.boolean()?;
            Ok(closing_mark(is_last))
        }
    }
}

fn closing_mark(is_last: bool) -> Mark
    ensures { result ≡ closed is_last }
{
    if is_last { Mark::Last } else { Mark::Failing }
}

// Reads the code of a failure, which stands there twice.
fn read_code(reader: &mut Reader<'_>) -> Result<i32, JuteFail>
    ensures { Gives (λ x. x) result reader.new (codes.read reader.old) }
{
    let code = reader.int()?;
    fixed_int(reader, code)?;
    Ok(code)
}

// Reads a result behind its type.
fn read_result(alloc: Global, reader: &mut Reader<'_>, kind: OpKind) -> Result<OpResult, JuteFail>
    ensures { Gives (λ x. x) result reader.new (op_results kind reader.old) }
{
    fixed_boolean(reader, false)?;
    fixed_int(reader, 0)?;
    match kind {
        OpKind::Delete | OpKind::Check => Ok(OpResult::Empty),
        OpKind::Create => {
            let path = read_some_text(alloc, reader)?;
            Ok(OpResult::Path(path))
        }
        OpKind::SetData => {
            let stat = read_stat(reader)?;
            Ok(OpResult::Stat(stat))
        }
        OpKind::Create2 => {
            let path = read_some_text(alloc, reader)?;
            let stat = read_stat(reader)?;
            Ok(OpResult::PathStat(path, stat))
        }
    }
}

// Reads the values behind the first one.
fn read_others<T: Marked + Drop>(
    alloc: Global,
    reader: &mut Reader<'_>,
    first: T,
) -> Result<Items<T>, JuteFail>
    ensures { Gives (λ x. x) result reader.new (behind_all (first ∷ []) ((untils T.form).read reader.old)) }
{
    let mut before = Vec::new(alloc);
    before.push(first)?;
    let values = read_marked_behind(alloc, reader, before)?;
    Ok(Items::from_vec(values))
}

// Reads failures behind the first mark.
fn read_failures(alloc: Global, reader: &mut Reader<'_>) -> Result<Items<i32>, JuteFail>
    ensures { Gives (λ x. x) result reader.new (failure_lists reader.old) }
{
    let first = read_code(reader)?;
    read_others(alloc, reader, first)
}

// Reads results behind the first type.
fn read_results(
    alloc: Global,
    reader: &mut Reader<'_>,
    kind: OpKind,
) -> Result<Items<(i32, OpResult)>, JuteFail>
    ensures { Gives (λ x. x) result reader.new (result_lists kind reader.old) }
{
    let first = read_result(alloc, reader, kind)?;
    read_others(alloc, reader, numbered(kind, first))
}

/// Reads the results of a multi. The first mark tells whether they are results or failures.
pub(crate) fn read_multi(alloc: Global, reader: &mut Reader<'_>) -> Result<WireReply, JuteFail>
    ensures { Gives (λ x. x) result reader.new (multi_replies reader.old) }
{
    let mark = read_mark(reader)?;
    match mark {
        Mark::Last => {
            fixed_int(reader, END)?;
            Ok(WireReply::Multi(Items::new(alloc)))
        }
        Mark::Failing => {
            let codes = read_failures(alloc, reader)?;
            Ok(WireReply::Failed(codes))
        }
        Mark::Listed(kind) => {
            let results = read_results(alloc, reader, kind)?;
            Ok(WireReply::Multi(results))
        }
    }
}

// Writes a result behind its mark, where it is one of an operation of that type.
fn write_numbered(writer: &mut Writer, answer: &(i32, OpResult)) -> Result<(), NoMemory>
    ensures { OnOk result (Wrote result_steps (Some answer.now) writer.old writer.new) }
{
    let (number, result) = answer;
    match kind_named(number) {
        None => Err(AllocError),
        Some(kind) => write_result(writer, kind, result),
    }
}

fn kind_named(number: &i32) -> Option<OpKind>
    ensures { result ≡ op_named number.now }
{
    op_kind_from(*number)
}

fn write_result(writer: &mut Writer, kind: OpKind, answer: &OpResult) -> Result<(), NoMemory>
    ensures { OnOk result (Wrote result_steps (Some (op_number kind, answer.now)) writer.old writer.new) }
{
    write_type(writer, kind)?;
    writer.boolean(false)?;
    writer.int(0)?;
    write_body(writer, kind, answer)?;
    Ok(())
}

// Writes the number of an operation's type.
fn write_type(writer: &mut Writer, kind: OpKind) -> Result<(), NoMemory>
    ensures { OnOk result (Wrote ints (op_number kind) writer.old writer.new) }
{
    writer.int(op_number(kind))
}

// Writes what a result holds, where it is one of an operation of that type.
fn write_body(writer: &mut Writer, kind: OpKind, answer: &OpResult) -> Result<(), NoMemory>
    ensures { OnOk result (Wrote (op_replies kind) answer.now writer.old writer.new) }
{
    match (kind, answer) {
        (OpKind::Delete | OpKind::Check, OpResult::Empty) => Ok(()),
        (OpKind::Create, OpResult::Path(path)) => write_some_text(writer, path),
        (OpKind::SetData, OpResult::Stat(stat)) => write_stat(writer, stat),
        (OpKind::Create2, OpResult::PathStat(path, stat)) => {
            write_some_text(writer, path)?;
            write_stat(writer, stat)?;
            Ok(())
        }
        _ => Err(AllocError),
    }
}

// Writes the code of a failure behind its mark.
#[tactic(auto, unfolding(crate::specs::OpResults::lead_named))]
fn write_code(writer: &mut Writer, code: i32) -> Result<(), NoMemory>
    ensures { OnOk result (Wrote failure_steps (Some code) writer.old writer.new) }
{
    writer.int(END)?;
    writer.boolean(false)?;
    writer.int(code)?;
    writer.int(code)?;
    Ok(())
}

// Writes the end mark.
#[tactic(auto, unfolding(crate::specs::OpResults::lead_named))]
fn write_last(writer: &mut Writer) -> Result<(), NoMemory>
    ensures results { OnOk result (Wrote result_steps None writer.old writer.new) }
    ensures failures { OnOk result (Wrote failure_steps None writer.old writer.new) }
{
    writer.int(END)?;
    writer.boolean(true)?;
    writer.int(END)?;
    Ok(())
}

/// Writes the results of a multi, where each is one of an operation of its type.
#[tactic(auto, using(crate::proofs::ResultWrites::wrote_held))]
pub(crate) fn write_results(
    writer: &mut Writer,
    results: &Items<(i32, OpResult)>,
) -> Result<(), NoMemory>
    ensures { OnOk result (Wrote multis (held results.now) writer.old writer.new) }
{
    write_marked(writer, results.as_slice())
}

/// Writes the codes of a multi that failed, where there is one at least.
#[tactic(auto, using(crate::proofs::ResultWrites::wrote_failed))]
pub(crate) fn write_failures(writer: &mut Writer, codes: &Items<i32>) -> Result<(), NoMemory>
    ensures { OnOk result (Wrote multis (failed codes.now) writer.old writer.new) }
{
    if codes.len() == 0 {
        return Err(AllocError);
    }
    write_marked(writer, codes.as_slice())
}
