//! The types of requests.

ghost use Rattle.std.specs.Prelude.{◌≡◌, OnOk, IsTrue};
ghost use Rattle.kp_jute.specs.Form.{Gives, Wrote};
ghost use Rattle.kp_wire.specs.declared.kind.Kind.TheVariants as kinds;
ghost use Rattle.kp_wire.specs.Kinds.{kind_of, plain_kind_of, kind_number, kind_forms, look_named, look_number};

use crate::op_kind::{OpKind, op_kind_from, op_number};
use kp_jute::{JuteFail, NoMemory, Reader, Writer};
use std::alloc::AllocError;

/// The type of a request: one of the table's, or any other number.
#[derive(Clone, Copy)]
pub enum Kind {
    /// One that a multi may hold too.
    Op(OpKind),
    Look(LookKind),
    GetAcl,
    SetAcl,
    Sync,
    Ping,
    Multi,
    Auth,
    SetWatches,
    CloseSession,
    Other(i32),
}

/// A type that looks at a path and may leave a watch there.
#[derive(Clone, Copy)]
pub enum LookKind {
    Exists,
    GetData,
    GetChildren,
    GetChildren2,
}

/// The type of that number.
#[tactic(auto, unfolding(crate::specs::Kinds::kind_of))]
pub(crate) fn kind_from(number: i32) -> Kind
    ensures { result ≡ kind_of number }
{
    match op_kind_from(number) {
        Some(kind) => Kind::Op(kind),
        None => match look_kind_from(number) {
            Some(kind) => Kind::Look(kind),
            None => plain_kind_from(number),
        },
    }
}

#[tactic(auto, using(crate::proofs::Differ::differ), unfolding(crate::specs::Kinds::look_named))]
fn look_kind_from(number: i32) -> Option<LookKind>
    ensures { result ≡ look_named number }
{
    match number {
        3 => Some(LookKind::Exists),
        4 => Some(LookKind::GetData),
        8 => Some(LookKind::GetChildren),
        12 => Some(LookKind::GetChildren2),
        _ => None,
    }
}

#[tactic(auto, using(crate::proofs::Differ::differ), unfolding(crate::specs::Kinds::plain_kind_of))]
fn plain_kind_from(number: i32) -> Kind
    ensures { result ≡ plain_kind_of number }
{
    match number {
        6 => Kind::GetAcl,
        7 => Kind::SetAcl,
        9 => Kind::Sync,
        11 => Kind::Ping,
        14 => Kind::Multi,
        100 => Kind::Auth,
        101 => Kind::SetWatches,
        -11 => Kind::CloseSession,
        _ => Kind::Other(number),
    }
}

/// The type's number.
pub(crate) fn number_of(kind: Kind) -> i32
    ensures { result ≡ kind_number kind }
{
    match kind {
        Kind::Op(kind) => op_number(kind),
        Kind::Look(kind) => look_number(kind),
        Kind::GetAcl => 6,
        Kind::SetAcl => 7,
        Kind::Sync => 9,
        Kind::Ping => 11,
        Kind::Multi => 14,
        Kind::Auth => 100,
        Kind::SetWatches => 101,
        Kind::CloseSession => -11,
        Kind::Other(number) => number,
    }
}

fn look_number(kind: LookKind) -> i32
    ensures { result ≡ look_number kind }
{
    match kind {
        LookKind::Exists => 3,
        LookKind::GetData => 4,
        LookKind::GetChildren => 8,
        LookKind::GetChildren2 => 12,
    }
}

/// Reads a type.
pub(crate) fn read_kind(reader: &mut Reader<'_>) -> Result<Kind, JuteFail>
    ensures { Gives (λ k. k) result reader.new (kind_forms.read reader.old) }
{
    let number = reader.int()?;
    Ok(kind_from(number))
}

/// Writes a type. Answers `NoMemory` also for an other type whose number has a row.
pub(crate) fn write_kind(writer: &mut Writer, kind: Kind) -> Result<(), NoMemory>
    ensures { OnOk result (Wrote kind_forms kind writer.old writer.new) }
{
    if !is_as_named(kind) {
        return Err(AllocError);
    }
    writer.int(number_of(kind))
}

// Whether the type is the one that its number names.
#[tactic(auto, using(crate::proofs::KindLaws::as_named, crate::proofs::KindLaws::other_there))]
fn is_as_named(kind: Kind) -> bool
    ensures { IsTrue result → kind_of (kind_number kind) ≡ kind }
{
    match kind {
        Kind::Other(number) => matches!(kind_from(number), Kind::Other(_)),
        _ => true,
    }
}
