//! What is shown of nodes, kept beside them.

ghost use Rattle.std.specs.Prelude.{◌≡◌, ℕ, ◌<◌, ◌≤◌, List, length, min, slice_index_or, true, IsTrue, OnOk};
ghost use Rattle.std.specs.Vec.{vec_len, vec_capacity};
ghost use Rattle.std.specs.FinMap.{find, put, is_sorted};
ghost use Rattle.std.specs.declared.cmp.Ordering.TheVariants.{Greater};
ghost use Rattle.kp_model.specs.declared.node.Node.{Node as PathNode};
ghost use Rattle.kp_model.specs.Limits.{last_count, longest_field};
ghost use Rattle.kp_model.specs.Path.{parent as parent_of};
ghost use Rattle.kp_model.specs.State.{is_child as child, meta_of, path_cmp};
ghost use Rattle.kp_plain.specs.Beside.{AreOrdered, child_count, shown_again, both_again, raised_at, raised_parent};

use crate::sorted::{Place, find_in, find_path, place_of_path, put_in, put_reserved, remove_from};
use kp_model::limits::LAST_COUNT;
use kp_model::{Meta, NoMemory, Node, Text};
use std::alloc::Global;

/// The parent of a path; the root is its own.
pub fn parent(path: &str) -> &str
    ensures { result.now ≡ parent_of path.now }
{
    match kp_path::parent(path) {
        None => "/",
        Some(up) => up,
    }
}

/// Whether a path is that of a child of another.
#[tactic(auto, unfolding(kp_model::specs::State::is_child))]
pub fn is_child(path: &str, other: &str) -> bool
    ensures { result ≡ child path.now other.now }
{
    other != "/" && parent(other) == path
}

// How many of the nodes are children of a path.
fn count_in(items: &[(Text, Node)], path: &str) -> usize
    ensures { result ≡ child_count items.now path.now }
{
    items
        .iter()
        .filter(|item| is_child(path, item.0.as_str()))
        .count()
}

// How many children are shown of so many.
fn shown_count(children: usize) -> u32
    ensures { result ≡ min children last_count }
{
    children.min(LAST_COUNT as usize) as u32
}

// The numbers that are shown of a node of which so many children are shown.
fn shown(node: &Node, kids: u32) -> Meta
    requires { length node.now.bytes ≤ longest_field }
    ensures { result ≡ record (meta_of 0 node.now) { kids = kids } }
{
    Meta {
        czxid: node.czxid,
        mzxid: node.mzxid,
        pzxid: node.pzxid,
        ctime: node.ctime,
        mtime: node.mtime,
        version: node.version,
        cversion: node.cversion,
        aversion: node.aversion,
        owner: node.owner,
        created: node.created,
        len: node.bytes.len() as u32,
        kids,
    }
}

// Brings what is shown of one path up to date.
fn show(nodes: &[(Text, Node)], metas: &mut Vec<(Text, Meta)>, path: Text) -> Result<(), NoMemory>
    requires nodes { AreOrdered nodes.now }
    requires sorted { IsTrue (is_sorted path_cmp metas.old.items) }
    ensures { OnOk result (metas.new.items ≡ shown_again nodes.now path metas.old.items) }
{
    match find_in(nodes, &path) {
        None => {
            remove_from(metas, &path);
            Ok(())
        }
        Some(node) => {
            let meta = shown(node, shown_count(count_in(nodes, path.as_str())));
            put_in(metas, path, meta)
        }
    }
}

/// Brings what is shown of a path and of its parent up to date, where the node of the path has gone.
pub fn show_both(
    alloc: Global,
    nodes: &[(Text, Node)],
    metas: &mut Vec<(Text, Meta)>,
    path: &str,
) -> Result<(), NoMemory>
    requires nodes { AreOrdered nodes.now }
    requires sorted { IsTrue (is_sorted path_cmp metas.old.items) }
    ensures { OnOk result (metas.new.items ≡ both_again nodes.now path.now metas.old.items) }
{
    show(nodes, metas, Text::from_str(alloc, path)?)?;
    show(nodes, metas, Text::from_str(alloc, parent(path))?)
}

// Shows one child more of a path, where a node is there.
fn raise(metas: &mut [(Text, Meta)], path: &str)
    requires { IsTrue (is_sorted path_cmp metas.old) }
    ensures { metas.new ≡ raised_at path.now (find path_cmp path.now metas.old) metas.old }
{
    match place_of_path(metas, path) {
        Place::At(i) => metas[i].1.kids = shown_count(metas[i].1.kids as usize + 1),
        Place::Before(_) => {}
    }
}

// Shows one child more of a path's parent, where the path is new and has one.
fn raise_parent(metas: &mut [(Text, Meta)], path: &str)
    requires { IsTrue (is_sorted path_cmp metas.old) }
    ensures { metas.new ≡ raised_parent path.now metas.old }
{
    if find_path(metas, path).is_none() {
        match kp_path::parent(path) {
            Some(above) => raise(metas, above),
            None => {}
        }
    }
}

// The same, and the order stays.
fn raise_in_order(metas: &mut [(Text, Meta)], path: &str)
    requires { IsTrue (is_sorted path_cmp metas.old) }
    ensures raised { metas.new ≡ raised_parent path.now metas.old }
    ensures sorted { IsTrue (is_sorted path_cmp metas.new) }
{
    raise_parent(metas, path)
}

/// Shows a node of a path with so many children, and one child more of its parent, where the path is new. There is
/// room for one more.
pub fn show_put(metas: &mut Vec<(Text, Meta)>, path: Text, node: &Node, kids: u32)
    requires len { length node.now.bytes ≤ longest_field }
    requires sorted { IsTrue (is_sorted path_cmp metas.old.items) }
    requires room { vec_len metas.old < vec_capacity metas.old }
    ensures { metas.new.items ≡ put path_cmp path (record (meta_of 0 node.now) { kids = kids }) (raised_parent path metas.old.items) }
{
    raise_in_order(metas, path.as_str());
    put_reserved(metas, path, shown(node, kids));
}

// Whether the path is behind those of all nodes.
fn is_behind(nodes: &[(Text, Node)], path: &str) -> bool
    requires { AreOrdered nodes.now }
    ensures { result ≡ true → (j : ℕ) (d : List ℕ × PathNode) → j < length nodes.now → path_cmp path.now (slice_index_or nodes.now j d).0 ≡ Greater }
{
    match place_of_path(nodes, path) {
        Place::At(_) => false,
        Place::Before(i) => i == nodes.len(),
    }
}

/// How many children are shown of a path that has no node. Costs a look at all nodes, unless the path is behind them
/// and not the root.
pub fn kids_of_new(nodes: &[(Text, Node)], path: &str) -> u32
    requires { AreOrdered nodes.now }
    ensures { result ≡ min (child_count nodes.now path.now) last_count }
{
    if path != "/" && is_behind(nodes, path) {
        return 0;
    }
    shown_count(count_in(nodes, path))
}
