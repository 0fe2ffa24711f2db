//! The nodes behind some effects, known without a tree of their own.

ghost use Rattle.std.specs.Prelude.{◌≡◌, ◌-◌, ◌++◌, [], ◌∷◌, List, ℕ, Some, None, cond, min, string_bytes, IfOk, IsSome, OnOk};
ghost use Rattle.kp_model.specs.Limits.{last_count};
ghost use Rattle.std.specs.Str.{bytes_eq};
ghost use Rattle.std.specs.FinMap as map;
ghost use Rattle.kp_model.specs.Path.{parent};
ghost use Rattle.kp_model.specs.State.{Nodes, meta_at};
ghost use Rattle.kp_draft.specs.Drafts.{IsDraft, IsKnown, known_at, removal};
ghost use Rattle.kp_act.specs.Effects.{IsChildPath, without_child_shown};
ghost use Rattle.kp_act.specs.Several.{effected_nodes_by};
ghost use Rattle.kp_act.specs.declared.plan.Effect.TheVariants as effect;

use kp_act::{Effect, Effects, rise};
use kp_model::limits::LAST_COUNT;
use kp_model::{Meta, NoMemory, Text, View};
use std::alloc::Global;
use std::collections::HashMap;

/// What is known of a path: the numbers of its node, if there is one, and how many children it has.
#[derive(Clone, Copy)]
pub struct Known {
    pub meta: Option<Meta>,
    pub kids: u64,
}

/// What is known of the paths that changed.
type Kept = HashMap<String, Known>;

/// Effects on the nodes of a view, with what is known of the paths that they change: a look at the nodes behind
/// them costs what a look at the view does.
#[derive(Drop)]
pub struct Draft {
    pub effects: Effects,
    pub kept: HashMap<String, Known>,
}

/// No effects.
pub(crate) fn blank(alloc: Global) -> Draft
    ensures none { result.effects ≡ [] }
    ensures draft { (nodes : Nodes) → IsDraft nodes result.effects result.kept.entries }
{
    Draft {
        effects: Effects::new(alloc),
        kept: HashMap::new(alloc),
    }
}

/// What is known of a path behind the effects.
pub(crate) fn look<V: View>(
    alloc: Global,
    view: &V,
    draft: &Draft,
    path: &str,
) -> Result<Known, NoMemory>
    requires { IsDraft (V.state view.now).nodes draft.now.effects draft.now.kept.entries }
    ensures { IfOk result (IsKnown (effected_nodes_by (V.state view.now).nodes draft.now.effects) path.now) }
{
    match draft.kept.get(path) {
        Some(known) => Ok(*known),
        None => look_under(alloc, view, path),
    }
}

// What is known of a path of the view.
fn look_under<V: View>(alloc: Global, view: &V, path: &str) -> Result<Known, NoMemory>
    ensures { IfOk result (IsKnown (V.state view.now).nodes path.now) }
{
    match view.meta(path) {
        None => list(alloc, view, path, None),
        Some(meta) => look_at(alloc, view, path, *meta),
    }
}

// The same of a path whose node shows these numbers. Its children are listed only where more than can be shown may
// be there.
fn look_at<V: View>(alloc: Global, view: &V, path: &str, meta: Meta) -> Result<Known, NoMemory>
    requires { Some meta ≡ meta_at (V.state view.now).nodes path.now }
    ensures { IfOk result (IsKnown (V.state view.now).nodes path.now) }
{
    if meta.kids < LAST_COUNT {
        Ok(Known {
            meta: Some(meta),
            kids: meta.kids as u64,
        })
    } else {
        list(alloc, view, path, Some(meta))
    }
}

// The same, where the children are listed.
fn list<V: View>(alloc: Global, view: &V, path: &str, meta: Option<Meta>) -> Result<Known, NoMemory>
    requires { meta ≡ meta_at (V.state view.now).nodes path.now }
    ensures { IfOk result (IsKnown (V.state view.now).nodes path.now) }
{
    let names = view.kids(alloc, path)?;
    Ok(Known {
        meta,
        kids: names.len() as u64,
    })
}

/// A node of this owner goes: its parent shows the index then, and one child less.
pub(crate) fn remove<V: View>(
    alloc: Global,
    view: &V,
    draft: &mut Draft,
    index: u64,
    owner: u64,
    path: &str,
) -> Result<(), NoMemory>
    requires draft { IsDraft (V.state view.now).nodes draft.old.effects draft.old.kept.entries }
    requires child { IsChildPath path.now }
    requires there { IsSome (map.get (effected_nodes_by (V.state view.now).nodes draft.old.effects) path.now) }
    requires above { IsSome (map.get (effected_nodes_by (V.state view.now).nodes draft.old.effects) (parent path.now)) }
    ensures draft { OnOk result (IsDraft (V.state view.now).nodes draft.new.effects draft.new.kept.entries) }
    ensures effects { OnOk result (draft.new.effects ≡ draft.old.effects ++ removal index owner (effected_nodes_by (V.state view.now).nodes draft.old.effects) path.now ∷ []) }
{
    match kp_path::parent(path) {
        None => Ok(()),
        Some(up) => remove_under(alloc, view, draft, index, owner, path, up),
    }
}

// The same of a node below this one.
fn remove_under<V: View>(
    alloc: Global,
    view: &V,
    draft: &mut Draft,
    index: u64,
    owner: u64,
    path: &str,
    up: &str,
) -> Result<(), NoMemory>
    requires draft { IsDraft (V.state view.now).nodes draft.old.effects draft.old.kept.entries }
    requires child { IsChildPath path.now }
    requires parent { up.now ≡ parent path.now }
    requires there { IsSome (map.get (effected_nodes_by (V.state view.now).nodes draft.old.effects) path.now) }
    requires above { IsSome (map.get (effected_nodes_by (V.state view.now).nodes draft.old.effects) (parent path.now)) }
    ensures draft { OnOk result (IsDraft (V.state view.now).nodes draft.new.effects draft.new.kept.entries) }
    ensures effects { OnOk result (draft.new.effects ≡ draft.old.effects ++ removal index owner (effected_nodes_by (V.state view.now).nodes draft.old.effects) path.now ∷ []) }
{
    let here = look(alloc, view, draft, path)?;
    let above = look(alloc, view, draft, up)?;
    match above.meta {
        None => Ok(()),
        Some(meta) => take_out(
            alloc, draft, index, owner, path, up, meta, above.kids, here.kids,
        ),
    }
}

// The same where the parent shows these numbers and has so many children, and the node so many.
fn take_out(
    alloc: Global,
    draft: &mut Draft,
    index: u64,
    owner: u64,
    path: &str,
    up: &str,
    meta: Meta,
    siblings: u64,
    kids: u64,
) -> Result<(), NoMemory>
    ensures effects { OnOk result (draft.new.effects ≡ draft.old.effects ++ effect.Remove path.now (without_child_shown index (min (siblings - 1) last_count) meta) owner ∷ []) }
    ensures kept { OnOk result ((p : List ℕ) → known_at draft.new.kept.entries p ≡ cond (bytes_eq path.now p) (Some (record { meta = None; kids = kids })) (cond (bytes_eq up.now p) (Some (record { meta = Some (without_child_shown index (min (siblings - 1) last_count) meta); kids = siblings - 1 })) (known_at draft.old.kept.entries p))) }
{
    let left = siblings.saturating_sub(1);
    let meta = without_child(index, meta, left.min(LAST_COUNT as u64) as u32);
    note(
        alloc,
        &mut draft.kept,
        up,
        Known {
            meta: Some(meta),
            kids: left,
        },
    )?;
    note(alloc, &mut draft.kept, path, Known { meta: None, kids })?;
    draft.effects.push(Effect::Remove {
        path: Text::from_str(alloc, path)?,
        up: meta,
        owner,
    })
}

// The numbers of a parent with one child less, where so many are shown then.
fn without_child(index: u64, up: Meta, kids: u32) -> Meta
    ensures { result ≡ without_child_shown index kids up }
{
    Meta {
        pzxid: index,
        cversion: rise(up.cversion),
        kids,
        ..up
    }
}

/// Keeps what is known of a path.
pub(crate) fn note(alloc: Global, kept: &mut Kept, path: &str, known: Known) -> Result<(), NoMemory>
    ensures { OnOk result ((p : List ℕ) → known_at kept.new.entries p ≡ cond (bytes_eq path.now p) (Some known) (known_at kept.old.entries p)) }
{
    let path = String::from_str(alloc, path)?;
    insert(kept, path, known)
}

// The same of a path with memory of its own.
fn insert(kept: &mut Kept, path: String, known: Known) -> Result<(), NoMemory>
    ensures { OnOk result ((p : List ℕ) → known_at kept.new.entries p ≡ cond (bytes_eq (string_bytes path) p) (Some known) (known_at kept.old.entries p)) }
{
    kept.insert(path, known)?;
    Ok(())
}
