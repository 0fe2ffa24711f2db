//! Pouring an image into a value that takes it part by part.

ghost use Rattle.std.specs.Prelude.{◌≡◌, IfOk};
ghost use Rattle.kp_model.specs.State.{empty};
ghost use Rattle.kp_snapshot.specs.Images.{parts, tables};
ghost use Rattle.kp_snapshot.specs.Filled.{Gets, with_parts, with_tables};

use crate::check::{read_mark, read_next};
use crate::image::Image;
use crate::pour_nodes::pour_nodes;
use crate::pour_sessions::pour_sessions;
use kp_entry::read_number;
use kp_jute::{JuteFail, Reader};
use kp_model::{Fill, NoMemory};
use std::alloc::Global;

/// Hands all parts of the image to a value that stands for the empty state: its numbers, its sessions and its nodes, each in
/// the image's order. After `NoMemory` the value holds some of them and is to be given up.
pub fn pour<F: Fill>(alloc: Global, image: &Image, into: &mut F) -> Result<(), NoMemory>
    requires may { F.takes into.old }
    requires empty { F.state into.old ≡ empty }
    ensures set { IfOk result (λ _. F.state into.new ≡ image.now.state) }
    ensures may { F.takes into.new }
{
    let mut reader = Reader::new(image.as_slice());
    match pour_parts(alloc, &mut reader, into) {
        Ok(()) => Ok(()),
        Err(_) => Err(NoMemory),
    }
}

fn pour_parts<F: Fill>(alloc: Global, reader: &mut Reader<'_>, into: &mut F) -> Result<(), JuteFail>
    requires { F.takes into.old }
    ensures set { Gets (λ _ t. F.state into.new ≡ with_parts (F.state into.old) t) result reader.new (parts.read reader.old) }
    ensures may { F.takes into.new }
{
    read_mark(reader)?;
    let index = read_number(reader)?;
    let _term = read_number(reader)?;
    let next = read_next(reader)?;
    into.start(index, next);
    pour_tables(alloc, reader, index, next, into)
}

fn pour_tables<F: Fill>(
    alloc: Global,
    reader: &mut Reader<'_>,
    index: u64,
    next: u64,
    into: &mut F,
) -> Result<(), JuteFail>
    requires { F.takes into.old }
    ensures set { Gets (λ _ t. F.state into.new ≡ with_tables (F.state into.old) t) result reader.new ((tables index next).read reader.old) }
    ensures may { F.takes into.new }
{
    let known = pour_sessions(alloc, reader, next, into)?;
    let answer = pour_nodes(alloc, reader, index, known.ids(), into);
    drop(known);
    answer
}
