//! Writing an image.

ghost use Rattle.std.specs.Prelude.{◌≡◌, IfOk, OnOk};
ghost use Rattle.std.specs.FinMap as map;
ghost use Rattle.kp_jute.specs.Form.{Wrote};
ghost use Rattle.kp_snapshot.specs.Images.{marks, mark, nexts, tables, parts};
ghost use Rattle.kp_snapshot.specs.Snapshots.{parts_of, snapshot_at};

use crate::image::Image;
use crate::put_nodes::put_nodes;
use crate::put_sessions::put_sessions;
use kp_entry::put_number;
use kp_model::{NoMemory, View};
use std::alloc::Global;

/// The image of the state that the view shows, as of this index and with the term of the entry there, 0 where the index is
/// 0. Answers `NoMemory` too where there is no such image: where the state is not sound as of this index, the index or the
/// term is above 2^62, or a text, data, an access list, the ids of a session, the sessions or the nodes are more than a
/// length of 32 bits can tell. Costs as much as there are bytes to write, and for each session and each node a search of
/// what was written before, which grows with the logarithm of it.
pub fn write<V: View>(alloc: Global, view: &V, index: u64, term: u64) -> Result<Image, NoMemory>
    ensures { IfOk result (λ made. made ≡ snapshot_at (V.state view.now) index term) }
{
    let mut bytes = Vec::new(alloc);
    match put_parts(alloc, &mut bytes, view, index, term) {
        Ok(()) => Ok(Image::of_spelling(bytes, index, term)),
        Err(_) => {
            drop(bytes);
            Err(NoMemory)
        }
    }
}

fn put_parts<V: View>(
    alloc: Global,
    out: &mut Vec<u8>,
    view: &V,
    index: u64,
    term: u64,
) -> Result<(), NoMemory>
    ensures { OnOk result (Wrote parts (parts_of (snapshot_at (V.state view.now) index term)) out.old.items out.new.items) }
{
    put_mark(out)?;
    put_number(out, index)?;
    put_number(out, term)?;
    let next = view.next_session();
    put_first(out, next)?;
    put_tables(alloc, out, view, index, next)
}

// Writes the mark of an image.
fn put_mark(out: &mut Vec<u8>) -> Result<(), NoMemory>
    ensures { OnOk result (Wrote marks mark out.old.items out.new.items) }
{
    out.extend_from_slice(b"KPI1".as_slice())?;
    Ok(())
}

// Writes the number that the next session gets, which is at least 1.
fn put_first(out: &mut Vec<u8>, next: u64) -> Result<(), NoMemory>
    ensures { OnOk result (Wrote nexts next out.old.items out.new.items) }
{
    if next < 1 {
        return Err(NoMemory);
    }
    put_number(out, next)
}

// Writes the sessions and the nodes.
fn put_tables<V: View>(
    alloc: Global,
    out: &mut Vec<u8>,
    view: &V,
    index: u64,
    next: u64,
) -> Result<(), NoMemory>
    ensures { OnOk result (Wrote (tables index next) (map.entries (V.state view.now).sessions, map.entries (V.state view.now).nodes) out.old.items out.new.items) }
{
    let known = put_sessions(alloc, out, view, next)?;
    let put = put_nodes(alloc, out, view, index, known.ids());
    drop(known);
    put
}
