//! Reading the nodes of an image.

ghost use Rattle.std.specs.Prelude.{◌≡◌, ◌++◌, ◌==◌, [], ◌∷◌, List, true, IfOk, IsTrue};
ghost use Rattle.std.specs.Str.{bytes_eq};
ghost use Rattle.kp_model.specs.Path.{root, is_well_formed};
ghost use Rattle.kp_jute.specs.Form.{Gives};
ghost use Rattle.kp_entry.specs.Fields.{limited, strings};
ghost use Rattle.kp_snapshot.specs.Rules.{Placed, may_be_path, may_own, is_open};
ghost use Rattle.kp_snapshot.specs.Images.{node_fields, node_behind, nodes};
ghost use Rattle.kp_snapshot.specs.Rows.{rows_at};
ghost use Rattle.kp_snapshot.specs.Ups.{AreRising, AreUps};
ghost use Rattle.kp_snapshot.specs.Knowing.{Finds, Stand};
ghost use Rattle.kp_snapshot.specs.Nodes.{fields_of, placed_of};

use crate::figures::read_figures;
use crate::lines::read_lines;
use crate::trail::Trail;
use kp_entry::{lend_bytes, lend_text};
use kp_jute::{JuteFail, Reader};
use kp_model::{Acls, Meta};
use std::alloc::Global;

/// What stands behind the path of a node. `meta` has neither its length nor its children.
#[derive(Drop)]
pub(crate) struct Body<'a> {
    pub(crate) content: &'a [u8],
    pub(crate) acl: Acls,
    pub(crate) meta: Meta,
}

/// A node that was read.
#[derive(Drop)]
pub(crate) struct Found<'a> {
    pub(crate) path: &'a str,
    pub(crate) body: Body<'a>,
}

/// Reads the next node. A reader and a trail of which one is refused are to be dropped.
pub(crate) fn read_node<'a>(
    alloc: Global,
    reader: &mut Reader<'a>,
    trail: &mut Trail<'a>,
    index: u64,
    ids: &[u64],
) -> Result<Found<'a>, JuteFail>
    requires { AreRising ids.now }
    ensures read { (before : List Placed) → Stand before trail.old.last.now trail.old.ups.items → Gives placed_of result reader.new ((node_behind index ids.now before).read reader.old) }
    ensures formed { IfOk result (λ f. IsTrue (is_well_formed f.path.now)) }
    ensures next { (before : List Placed) → Stand before trail.old.last.now trail.old.ups.items → IfOk result (λ f. Stand (before ++ placed_of f ∷ []) trail.new.last.now trail.new.ups.items) }
{
    let path = read_path(reader, trail)?;
    let body = read_body(alloc, reader, index, ids, path == "/")?;
    match trail.add(path, body.meta.owner == 0) {
        Ok(()) => Ok(Found { path, body }),
        Err(_) => {
            drop(body);
            Err(JuteFail::NoMemory)
        }
    }
}

// Reads the path of the next node.
fn read_path<'a>(reader: &mut Reader<'a>, trail: &mut Trail<'a>) -> Result<&'a str, JuteFail>
    ensures read { (before : List Placed) → Stand before trail.old.last.now trail.old.ups.items → Gives (λ s. s.now) result reader.new ((limited (may_be_path before) strings).read reader.old) }
    ensures may { (before : List Placed) → Stand before trail.old.last.now trail.old.ups.items → IfOk result (λ s. may_be_path before s.now ≡ true) }
    ensures ups { (before : List Placed) → Stand before trail.old.last.now trail.old.ups.items → IfOk result (λ s. AreUps (is_open before) s.now trail.new.ups.items) }
    ensures last { trail.new.last ≡ trail.old.last }
    ensures formed { IfOk result (λ s. IsTrue (is_well_formed s.now)) }
{
    let at = reader.place();
    let path = lend_text(reader)?;
    if !trail.may_be_next(path) {
        return Err(JuteFail::BadByte { at });
    }
    Ok(path)
}

// Reads what stands behind a path.
fn read_body<'a>(
    alloc: Global,
    reader: &mut Reader<'a>,
    index: u64,
    ids: &[u64],
    is_root: bool,
) -> Result<Body<'a>, JuteFail>
    requires { AreRising ids.now }
    ensures { Gives fields_of result reader.new ((node_fields index (may_own ids.now is_root)).read reader.old) }
{
    let content = lend_bytes(reader)?;
    let acl = read_lines(alloc, reader)?;
    match read_figures(reader, index, ids, is_root) {
        Ok(meta) => Ok(Body { content, acl, meta }),
        Err(fail) => {
            drop(acl);
            Err(fail)
        }
    }
}
