//! Writing the nodes of a state.

ghost use Rattle.std.specs.Prelude.{◌≡◌, ◌++◌, ◌==◌, [], ◌∷◌, List, ℕ, true, OnOk, Some};
ghost use Rattle.std.specs.FinMap as map;
ghost use Rattle.kp_jute.specs.Form.{Wrote};
ghost use Rattle.kp_entry.specs.Fields.{limited, strings};
ghost use Rattle.kp_model.specs.declared.node.Node.{Node};
ghost use Rattle.kp_model.specs.Poured.{node_of};
ghost use Rattle.kp_snapshot.specs.Rules.{Placed, may_be_path, may_own, is_open};
ghost use Rattle.kp_snapshot.specs.Images.{node_fields, node_behind, nodes, spell_node};
ghost use Rattle.kp_snapshot.specs.Ups.{AreRising, AreUps};
ghost use Rattle.kp_snapshot.specs.Knowing.{Stand};
ghost use Rattle.kp_snapshot.specs.Nodes.{figures_of};
ghost use Rattle.kp_snapshot.specs.Written.{WroteRows};

use crate::put_figures::put_figures;
use crate::put_lines::put_lines;
use crate::trail::Trail;
use kp_entry::{put_bytes, put_text, put_word};
use kp_model::limits::LONGEST_FIELD;
use kp_model::{Acl, Meta, NoMemory, Text, View};
use std::alloc::Global;

/// Writes the nodes of a state, behind their count. `ids` are the numbers of the sessions, ascending. Bytes to which they
/// could not be written are to be dropped.
pub(crate) fn put_nodes<V: View>(
    alloc: Global,
    out: &mut Vec<u8>,
    view: &V,
    index: u64,
    ids: &[u64],
) -> Result<(), NoMemory>
    requires { AreRising ids.now }
    ensures { OnOk result (Wrote (nodes index ids.now) (map.entries (V.state view.now).nodes) out.old.items out.new.items) }
{
    let paths = view.paths(alloc)?;
    let put = put_counted(alloc, out, view, index, ids, paths.as_slice());
    drop(paths);
    put
}

// Writes the count of the nodes, and the nodes behind none. No nodes have no spelling.
fn put_counted<V: View>(
    alloc: Global,
    out: &mut Vec<u8>,
    view: &V,
    index: u64,
    ids: &[u64],
    paths: &[Text],
) -> Result<(), NoMemory>
    requires ids { AreRising ids.now }
    requires paths { paths.now ≡ map.keys (V.state view.now).nodes }
    ensures { OnOk result (Wrote (nodes index ids.now) (map.entries (V.state view.now).nodes) out.old.items out.new.items) }
{
    if paths.is_empty() || paths.len() > LONGEST_FIELD {
        return Err(NoMemory);
    }
    put_word(out, paths.len() as u32)?;
    put_each(alloc, out, view, index, ids, paths)
}

// Writes the nodes behind none, without their count.
fn put_each<V: View>(
    alloc: Global,
    out: &mut Vec<u8>,
    view: &V,
    index: u64,
    ids: &[u64],
    paths: &[Text],
) -> Result<(), NoMemory>
    requires ids { AreRising ids.now }
    requires paths { paths.now ≡ map.keys (V.state view.now).nodes }
    ensures { OnOk result (WroteRows spell_node (node_behind index ids.now) (map.entries (V.state view.now).nodes) out.old.items out.new.items) }
{
    let mut trail = Trail::new(alloc);
    for path in paths {
        put_next(out, view, &mut trail, index, ids, path)?;
    }
    Ok(())
}

// Writes the node of this path behind those of the trail. There always is one.
#[tactic(auto, unfolding(kp_model::specs::State::acl_at, kp_model::specs::State::meta_at, kp_model::specs::State::bytes_at, kp_model::specs::State::stat))]
fn put_next<'a, V: View>(
    out: &mut Vec<u8>,
    view: &V,
    trail: &mut Trail<'a>,
    index: u64,
    ids: &[u64],
    path: &'a Text,
) -> Result<(), NoMemory>
    requires { AreRising ids.now }
    ensures { (before : List Placed) (n : Node) → Stand before trail.old.last.now trail.old.ups.items → map.get (V.state view.now).nodes path.now ≡ Some n → OnOk result (Wrote (node_behind index ids.now before) (path.now, n) out.old.items out.new.items × Stand (before ++ (path.now, n) ∷ []) trail.new.last.now trail.new.ups.items) }
{
    let at = path.as_str();
    let (Some(meta), Some(content), Some(acl)) = (view.meta(at), view.content(at), view.acl(at))
    else {
        return Err(NoMemory);
    };
    put_node(out, trail, index, ids, path, content, acl, meta)
}

// Writes a node of these parts behind those of the trail.
fn put_node<'a>(
    out: &mut Vec<u8>,
    trail: &mut Trail<'a>,
    index: u64,
    ids: &[u64],
    path: &'a Text,
    content: &[u8],
    acl: &[Acl],
    meta: &Meta,
) -> Result<(), NoMemory>
    requires { AreRising ids.now }
    ensures { (before : List Placed) → Stand before trail.old.last.now trail.old.ups.items → OnOk result (Wrote (node_behind index ids.now before) (path.now, node_of content.now acl.now meta.now) out.old.items out.new.items × Stand (before ++ (path.now, node_of content.now acl.now meta.now) ∷ []) trail.new.last.now trail.new.ups.items) }
{
    put_path(out, trail, path)?;
    put_body(out, index, ids, path.as_str() == "/", content, acl, meta)?;
    trail.add(path.as_str(), meta.owner == 0)
}

// Writes the path of the next node.
fn put_path(out: &mut Vec<u8>, trail: &mut Trail<'_>, path: &Text) -> Result<(), NoMemory>
    ensures put { (before : List Placed) → Stand before trail.old.last.now trail.old.ups.items → OnOk result (Wrote (limited (may_be_path before) strings) path.now out.old.items out.new.items) }
    ensures ups { (before : List Placed) → Stand before trail.old.last.now trail.old.ups.items → OnOk result (AreUps (is_open before) path.now trail.new.ups.items) }
    ensures last { trail.new.last ≡ trail.old.last }
{
    if !trail.may_be_next(path.as_str()) {
        return Err(NoMemory);
    }
    put_text(out, path)
}

// Writes what stands behind a path.
fn put_body(
    out: &mut Vec<u8>,
    index: u64,
    ids: &[u64],
    is_root: bool,
    content: &[u8],
    acl: &[Acl],
    meta: &Meta,
) -> Result<(), NoMemory>
    requires { AreRising ids.now }
    ensures { OnOk result (Wrote (node_fields index (may_own ids.now is_root)) (content.now, (acl.now, figures_of meta.now)) out.old.items out.new.items) }
{
    put_bytes(out, content)?;
    put_lines(out, acl)?;
    put_figures(out, meta, index, ids, is_root)
}
