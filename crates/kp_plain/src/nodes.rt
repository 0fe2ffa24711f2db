ghost use Rattle.std.specs.Prelude.{◌≡◌, ◌≤◌, ◌++◌, ℕ, List, [], ◌∷◌, cond, map as each, length, min, IfOk, OnOk, OnErr};
ghost use Rattle.std.specs.List.{filter};
ghost use Rattle.std.specs.Option.{option_copied};
ghost use Rattle.std.specs.FinMap as map;
ghost use Rattle.kp_model.specs.declared.node.Node.{Node as PathNode};
ghost use Rattle.kp_model.specs.Limits.{last_count, longest_field};
ghost use Rattle.kp_model.specs.State.{meta_at, children, is_owned as owned};
ghost use Rattle.kp_plain.specs.Picked.{picks};

use crate::pick::Pick;
use crate::shown::{is_child, kids_of_new, show_both, show_put};
use crate::sorted::{find_path, put_reserved, remove_from};
use kp_model::{Meta, NoMemory, Node, Paths, Text};
use std::alloc::Global;
use std::marker::Model;

/// The nodes by their paths, which contracts see as a finite map. What is shown of each stands beside them.
#[derive(Drop)]
pub struct Nodes {
    // In the order of the paths.
    items: Vec<(Text, Node)>,
    // What is shown of each of them, in the same order.
    metas: Vec<(Text, Meta)>,
}

impl Model for Nodes {
    ghost use Rattle.std.specs.FinMap as map;
    ghost use Rattle.kp_model.specs.State.{Nodes as PathMap};
    ghost use Rattle.kp_model.specs.Codes.{nodes_code};
    ghost use Rattle.kp_plain.specs.Beside.{as_map, AreShown};

    ghost Value = { PathMap };

    ghost coded = { nodes_code };

    ghost view = { λ n. as_map n.items.items };

    ghost invariant = { λ n. AreShown n.items.items n.metas.items };
}

impl Nodes {
    /// No nodes. Takes no memory.
    pub fn new(alloc: Global) -> Nodes
        ensures { result ≡ map.empty }
    {
        Nodes {
            items: Vec::new(alloc),
            metas: Vec::new(alloc),
        }
    }

    /// Lends the node of a path; None exactly where there is none.
    pub fn get(&self, path: &str) -> Option<&Node>
        ensures { option_copied result ≡ map.get self.now path.now }
    {
        find_path(self.items.as_slice(), path)
    }

    /// Lends what is shown of the node of a path; None exactly where there is none.
    pub fn meta(&self, path: &str) -> Option<&Meta>
        ensures { option_copied result ≡ meta_at self.now path.now }
    {
        find_path(self.metas.as_slice(), path)
    }

    // How many children are shown of a path, whether it has a node or not.
    fn kids_of(&self, path: &str) -> u32
        ensures { result ≡ min (length (children self.now path.now)) last_count }
    {
        match self.meta(path) {
            Some(meta) => meta.kids,
            None => kids_of_new(self.items.as_slice(), path),
        }
    }

    /// Sets the node of a path. After an error nothing has changed. Costs a binary search and what it moves; and a
    /// look at all paths, where the path is new and not behind them.
    pub fn put(&mut self, alloc: Global, path: &str, node: Node) -> Result<(), NoMemory>
        requires { length node.bytes ≤ longest_field }
        ensures ok { OnOk result (self.new ≡ map.insert self.old path.now node) }
        ensures err { OnErr result (self.new ≡ self.old) }
    {
        let key = Text::from_str(alloc, path)?;
        let shown_key = Text::from_str(alloc, path)?;
        self.items.reserve(1)?;
        self.metas.reserve(1)?;
        let kids = self.kids_of(path);
        show_put(&mut self.metas, shown_key, &node, kids);
        put_reserved(&mut self.items, key, node);
        Ok(())
    }

    /// The nodes without the one of a path, where there is one.
    pub fn without(self, alloc: Global, path: &str) -> Result<Nodes, NoMemory>
        ensures { IfOk result (λ nodes. nodes ≡ map.remove self path.now) }
    {
        let Nodes {
            mut items,
            mut metas,
        } = self;
        remove_from(&mut items, &Text::from_str(alloc, path)?);
        show_both(alloc, items.as_slice(), &mut metas, path)?;
        Ok(Nodes { items, metas })
    }

    /// How many nodes there are.
    pub fn len(&self) -> u64
        ensures { result ≡ map.len self.now }
    {
        self.items.as_slice().len() as u64
    }

    /// The paths that are picked, ascending.
    pub fn picked(&self, alloc: Global, pick: &Pick) -> Result<Paths, NoMemory>
        ensures { IfOk result (λ paths. paths ≡ filter (picks self.now pick.now) (map.keys self.now)) }
    {
        gathered(alloc, self, self.items.as_slice(), pick)
    }

    /// An equal value with memory of its own.
    pub fn copy(&self, alloc: Global) -> Result<Nodes, NoMemory>
        ensures { IfOk result (λ made. made ≡ self.now) }
    {
        Ok(Nodes {
            items: copies(alloc, self.items.as_slice())?,
            metas: copied_metas(alloc, self.metas.as_slice())?,
        })
    }
}

fn copies(alloc: Global, from: &[(Text, Node)]) -> Result<Vec<(Text, Node)>, NoMemory>
    ensures { IfOk result (λ made. made.items ≡ from.now) }
{
    let mut items = Vec::new(alloc);
    for (path, node) in from {
        items.push((path.copy(alloc)?, node.copy(alloc)?))?;
    }
    Ok(items)
}

fn copied_metas(alloc: Global, from: &[(Text, Meta)]) -> Result<Vec<(Text, Meta)>, NoMemory>
    ensures { IfOk result (λ made. made.items ≡ from.now) }
{
    let mut items = Vec::new(alloc);
    for (path, meta) in from {
        items.push((path.copy(alloc)?, *meta))?;
    }
    Ok(items)
}

// Whether a session owns the node of a path.
fn is_owned(nodes: &Nodes, path: &str, id: u64) -> bool
    ensures { result ≡ owned nodes.now id path.now }
{
    match nodes.get(path) {
        None => false,
        Some(node) => node.owner == id,
    }
}

// Whether a path is picked.
fn is_picked(nodes: &Nodes, pick: &Pick, path: &str) -> bool
    ensures { result ≡ picks nodes.now pick.now path.now }
{
    match pick {
        Pick::Every => true,
        Pick::ChildOf(up) => is_child(up.as_str(), path),
        Pick::OwnedBy(id) => is_owned(nodes, path, *id),
    }
}

// Adds a path, where it is picked.
fn visit(
    alloc: Global,
    nodes: &Nodes,
    pick: &Pick,
    path: &str,
    found: &mut Paths,
) -> Result<(), NoMemory>
    ensures { OnOk result (found.new ≡ found.old ++ cond (picks nodes.now pick.now path.now) (path.now ∷ []) []) }
{
    if is_picked(nodes, pick, path) {
        found.push(Text::from_str(alloc, path)?)
    } else {
        Ok(())
    }
}

// The paths of entries that are picked.
fn gathered(
    alloc: Global,
    nodes: &Nodes,
    items: &[(Text, Node)],
    pick: &Pick,
) -> Result<Paths, NoMemory>
    ensures { IfOk result (λ paths. paths ≡ filter (picks nodes.now pick.now) (each (λ (e : List ℕ × PathNode). e.0) items.now)) }
{
    let mut found = Paths::new(alloc);
    for (path, _) in items {
        visit(alloc, nodes, pick, path.as_str(), &mut found)?;
    }
    Ok(found)
}
