//! Replies: a code, and behind the code 0 what a reply to that type of request holds.

ghost use Rattle.std.specs.Prelude.{◌≡◌, OnOk};
ghost use Rattle.kp_jute.specs.Form.{Gives, Wrote};
ghost use Rattle.kp_wire.specs.Replies.{shape_of, shape_replies, replies, shape_in, WroteBody};

use crate::field::{
    read_some_bytes, read_some_list, read_some_text, write_some_bytes, write_some_list,
    write_some_text,
};
use crate::result::{OpResult, read_multi, write_failures, write_results};
use crate::stat::{Stat, read_stat, write_stat};
use kp_jute::{JuteFail, NoMemory, Reader, Writer};
use kp_model::{Acls, Bytes, Items, Paths, Text};
use std::alloc::{AllocError, Global};

/// What a request is answered.
#[derive(Drop)]
pub enum WireReply {
    /// An error, by its code, which isn't 0.
    Err(i32),
    /// It was done, and there is nothing to tell.
    Empty,
    /// The whole path of a new node, or that of a sync.
    Path(Text),
    /// The whole path of a new node and its numbers.
    PathStat(Text, Stat),
    /// The numbers of a node.
    Stat(Stat),
    /// The data of a node and its numbers.
    Data(Bytes, Stat),
    /// The access list of a node and its numbers.
    Acl(Acls, Stat),
    /// The names of a node's children.
    Names(Paths),
    /// The names of a node's children and the node's numbers.
    NamesStat(Paths, Stat),
    /// The results of a multi's operations, each with the number of its operation's type.
    Multi(Items<(i32, OpResult)>),
    /// The code of each operation of a multi that failed. There is one at least.
    Failed(Items<i32>),
}

/// What stands behind the code 0 of a reply.
#[derive(Clone, Copy)]
pub enum Shape {
    Empty,
    Path,
    PathStat,
    Stat,
    Data,
    Acl,
    Names,
    NamesStat,
    Multi,
}

/// The shape of replies to requests of that type.
pub(crate) fn shape_from(kind: i32) -> Shape
    ensures { result ≡ shape_of kind }
{
    match kind {
        1 | 9 => Shape::Path,
        15 => Shape::PathStat,
        3 | 5 | 7 => Shape::Stat,
        4 => Shape::Data,
        6 => Shape::Acl,
        8 => Shape::Names,
        12 => Shape::NamesStat,
        14 => Shape::Multi,
        _ => Shape::Empty,
    }
}

/// Reads a reply to a request whose replies have the shape.
#[tactic(auto, using(crate::proofs::ReplySteps::done_is, crate::proofs::ReplySteps::refused_is))]
pub(crate) fn read_reply(
    alloc: Global,
    reader: &mut Reader<'_>,
    shape: Shape,
) -> Result<WireReply, JuteFail>
    ensures { Gives (λ x. x) result reader.new ((replies shape).read reader.old) }
{
    let code = reader.int()?;
    if code != 0 {
        return Ok(WireReply::Err(code));
    }
    read_body(alloc, reader, shape)
}

// Reads what stands behind the code 0.
fn read_body(alloc: Global, reader: &mut Reader<'_>, shape: Shape) -> Result<WireReply, JuteFail>
    ensures { Gives (λ x. x) result reader.new (shape_replies shape reader.old) }
{
    match shape {
        Shape::Empty => Ok(WireReply::Empty),
        Shape::Path => {
            let path = read_some_text(alloc, reader)?;
            Ok(WireReply::Path(path))
        }
        Shape::PathStat => {
            let path = read_some_text(alloc, reader)?;
            let stat = read_stat(reader)?;
            Ok(WireReply::PathStat(path, stat))
        }
        Shape::Stat => {
            let stat = read_stat(reader)?;
            Ok(WireReply::Stat(stat))
        }
        Shape::Data => {
            let bytes = read_some_bytes(alloc, reader)?;
            let stat = read_stat(reader)?;
            Ok(WireReply::Data(bytes, stat))
        }
        Shape::Acl => {
            let acl = read_some_list(alloc, reader)?;
            let stat = read_stat(reader)?;
            Ok(WireReply::Acl(acl, stat))
        }
        Shape::Names => {
            let names = read_some_list(alloc, reader)?;
            Ok(WireReply::Names(names))
        }
        Shape::NamesStat => {
            let names = read_some_list(alloc, reader)?;
            let stat = read_stat(reader)?;
            Ok(WireReply::NamesStat(names, stat))
        }
        Shape::Multi => read_multi(alloc, reader),
    }
}

/// Writes a reply: its code, and behind the code 0 its body. The code 0 is no error's.
pub(crate) fn write_answer(writer: &mut Writer, reply: &WireReply) -> Result<(), NoMemory>
    ensures { OnOk result (Wrote (replies (shape_in reply.now)) reply.now writer.old writer.new) }
{
    if let WireReply::Err(code) = reply {
        return write_error(writer, code);
    }
    writer.int(0)?;
    write_body(writer, reply)?;
    Ok(())
}

#[tactic(auto, using(crate::proofs::ReplyWrites::wrote_refused))]
fn write_error(writer: &mut Writer, code: &i32) -> Result<(), NoMemory>
    ensures { OnOk result (Wrote (replies (shape_in (WireReply.Err code.now))) (WireReply.Err code.now) writer.old writer.new) }
{
    if *code == 0 {
        return Err(AllocError);
    }
    writer.int(*code)
}

// Writes what stands behind the code 0.
fn write_body(writer: &mut Writer, reply: &WireReply) -> Result<(), NoMemory>
    ensures { OnOk result (WroteBody reply.now writer.old writer.new) }
{
    match reply {
        WireReply::Err(_) => Err(AllocError),
        WireReply::Empty => Ok(()),
        WireReply::Path(path) => write_some_text(writer, path),
        WireReply::PathStat(path, stat) => {
            write_some_text(writer, path)?;
            write_stat(writer, stat)?;
            Ok(())
        }
        WireReply::Stat(stat) => write_stat(writer, stat),
        WireReply::Data(bytes, stat) => {
            write_some_bytes(writer, bytes)?;
            write_stat(writer, stat)?;
            Ok(())
        }
        WireReply::Acl(acl, stat) => {
            write_some_list(writer, acl)?;
            write_stat(writer, stat)?;
            Ok(())
        }
        WireReply::Names(names) => write_some_list(writer, names),
        WireReply::NamesStat(names, stat) => {
            write_some_list(writer, names)?;
            write_stat(writer, stat)?;
            Ok(())
        }
        WireReply::Multi(results) => write_results(writer, results),
        WireReply::Failed(codes) => write_failures(writer, codes),
    }
}
