//! The nodes behind the operations of a multi that are done, known without a tree of their own.

ghost use Rattle.std.specs.Prelude.{◌≡◌, ◌+◌, ◌-◌, ◌++◌, [], ◌∷◌, Some, None, string_bytes, IfOk, OnOk};
ghost use Rattle.std.specs.Option.{option_copied, option_map};
ghost use Rattle.kp_model.specs.Path.{parent};
ghost use Rattle.kp_model.specs.State.{meta_at, acl_at};
ghost use Rattle.kp_draft.specs.Behind.{IsBehind, Tells, Notes, NotesOne, Lists, brood};
ghost use Rattle.kp_draft.specs.Drafts.{IsDraft};
ghost use Rattle.kp_act.specs.Effects.{IsChildPath, IsFit};
ghost use Rattle.kp_act.specs.Several.{effected_nodes_by};

use crate::draft::{Draft, Known, look, note};
use kp_act::{Effect, Look};
use kp_model::{Acl, Acls, Meta, NoMemory, Text, View};
use std::alloc::Global;
use std::collections::HashMap;
use std::marker::Model;

/// The access lists of the nodes that were made, and None for those that went.
pub(crate) type Relisted = HashMap<String, Option<Acls>>;

/// The nodes of a view behind the effects of a draft.
#[derive(Drop)]
pub(crate) struct Behind<'a, V: View> {
    view: &'a V,
    draft: &'a Draft,
    lists: &'a Relisted,
}

impl<'a, V: View> Model for Behind<'a, V> {
    ghost use Rattle.kp_model.specs.State.{Nodes};
    ghost use Rattle.kp_model.specs.Codes.{nodes_code};
    ghost use Rattle.kp_draft.specs.Behind.{IsBehind};
    ghost use Rattle.kp_act.specs.Several.{effected_nodes_by};

    ghost Value = { Nodes };

    ghost coded = { nodes_code };

    ghost view = { λ b. effected_nodes_by (V.state b.view.now).nodes b.draft.now.effects };

    ghost invariant = { λ b. IsBehind (V.state b.view.now).nodes b.draft.now.effects b.draft.now.kept.entries b.lists.now.entries };
}

/// The nodes of a view behind the effects of a draft, with the lists that they changed.
pub(crate) fn look_behind<'a, V: View>(
    view: &'a V,
    draft: &'a Draft,
    lists: &'a Relisted,
) -> Behind<'a, V>
    requires { IsBehind (V.state view.now).nodes draft.now.effects draft.now.kept.entries lists.now.entries }
    ensures { result ≡ effected_nodes_by (V.state view.now).nodes draft.now.effects }
{
    Behind { view, draft, lists }
}

impl<V: View> Look for Behind<'_, V> {
    ghost nodes = { λ b. b };

    fn meta(&self, path: &str) -> Option<&Meta> {
        meta_in(self.view, self.draft, path)
    }

    fn acl(&self, path: &str) -> Option<&[Acl]> {
        acl_in(self.view, self.draft, self.lists, path)
    }

    fn brood(&self, alloc: Global, path: &str) -> Result<u64, NoMemory> {
        brood_in(alloc, self.view, self.draft, path)
    }
}

// The numbers of a node behind the effects.
fn meta_in<'a, V: View>(view: &'a V, draft: &'a Draft, path: &str) -> Option<&'a Meta>
    requires { IsDraft (V.state view.now).nodes draft.now.effects draft.now.kept.entries }
    ensures { option_copied result ≡ meta_at (effected_nodes_by (V.state view.now).nodes draft.now.effects) path.now }
{
    match draft.kept.get(path) {
        Some(known) => known.meta.as_ref(),
        None => view.meta(path),
    }
}

// The access list of a node behind the effects.
fn acl_in<'a, V: View>(
    view: &'a V,
    draft: &'a Draft,
    lists: &'a Relisted,
    path: &str,
) -> Option<&'a [Acl]>
    requires { IsBehind (V.state view.now).nodes draft.now.effects draft.now.kept.entries lists.now.entries }
    ensures { option_copied result ≡ acl_at (effected_nodes_by (V.state view.now).nodes draft.now.effects) path.now }
{
    match lists.get(path) {
        Some(list) => lent(list),
        None => view.acl(path),
    }
}

// Lends a list where there is one.
fn lent(list: &Option<Acls>) -> Option<&[Acl]>
    ensures { option_map (λ l. l.now) result ≡ list.now }
{
    match list {
        Some(acl) => Some(acl.as_slice()),
        None => None,
    }
}

// How many children a path has behind the effects.
fn brood_in<V: View>(alloc: Global, view: &V, draft: &Draft, path: &str) -> Result<u64, NoMemory>
    requires { IsDraft (V.state view.now).nodes draft.now.effects draft.now.kept.entries }
    ensures { IfOk result (λ count. count ≡ brood (effected_nodes_by (V.state view.now).nodes draft.now.effects) path.now) }
{
    let known = look(alloc, view, draft, path)?;
    Ok(known.kids)
}

/// One effect more, which tells what is there behind it.
pub(crate) fn add<V: View>(
    alloc: Global,
    view: &V,
    draft: &mut Draft,
    lists: &mut Relisted,
    effect: Effect,
) -> Result<(), NoMemory>
    requires behind { IsBehind (V.state view.now).nodes draft.old.effects draft.old.kept.entries lists.old.entries }
    requires tells { Tells (effected_nodes_by (V.state view.now).nodes draft.old.effects) effect }
    requires fit { IsFit effect }
    ensures behind { OnOk result (IsBehind (V.state view.now).nodes draft.new.effects draft.new.kept.entries lists.new.entries) }
    ensures effects { OnOk result (draft.new.effects ≡ draft.old.effects ++ effect ∷ []) }
{
    keep(alloc, view, draft, lists, &effect)?;
    draft.effects.push(effect)
}

// Keeps what is known of the paths of an effect behind it.
fn keep<V: View>(
    alloc: Global,
    view: &V,
    draft: &mut Draft,
    lists: &mut Relisted,
    effect: &Effect,
) -> Result<(), NoMemory>
    requires behind { IsBehind (V.state view.now).nodes draft.old.effects draft.old.kept.entries lists.old.entries }
    requires tells { Tells (effected_nodes_by (V.state view.now).nodes draft.old.effects) effect.now }
    requires fit { IsFit effect.now }
    ensures behind { OnOk result (IsBehind (V.state view.now).nodes (draft.old.effects ++ effect.now ∷ []) draft.new.kept.entries lists.new.entries) }
    ensures effects { OnOk result (draft.new.effects ≡ draft.old.effects) }
{
    match effect {
        Effect::Nothing => Ok(()),
        Effect::Make {
            path,
            acl,
            meta,
            up,
            ..
        } => keep_make(alloc, view, draft, lists, path, acl, *meta, *up),
        Effect::Remove { path, up, .. } => keep_remove(alloc, view, draft, lists, path, *up),
        Effect::Set { path, meta, .. } => keep_one(alloc, view, draft, path, *meta),
        Effect::SetAcl { path, acl, meta } => {
            keep_acl(alloc, view, draft, lists, path, acl, *meta)
        }
    }
}

// A node is made with this list and these numbers, and its parent shows those.
fn keep_make<V: View>(
    alloc: Global,
    view: &V,
    draft: &mut Draft,
    lists: &mut Relisted,
    path: &Text,
    acl: &Acls,
    meta: Meta,
    above: Meta,
) -> Result<(), NoMemory>
    requires draft { IsDraft (V.state view.now).nodes draft.old.effects draft.old.kept.entries }
    requires child { IsChildPath path.now }
    ensures kept { let now = effected_nodes_by (V.state view.now).nodes draft.old.effects in OnOk result (Notes draft.old.kept.entries draft.new.kept.entries path.now (record { meta = Some meta; kids = brood now path.now }) (parent path.now) (record { meta = Some above; kids = brood now (parent path.now) + 1 })) }
    ensures listed { OnOk result (Lists lists.old.entries lists.new.entries path.now (Some acl.now)) }
    ensures effects { OnOk result (draft.new.effects ≡ draft.old.effects) }
{
    keep_list(alloc, lists, path.as_str(), Some(acl.copy(alloc)?))?;
    keep_made(alloc, view, draft, path.as_str(), meta, above)
}

// A node is removed, and its parent shows these numbers.
fn keep_remove<V: View>(
    alloc: Global,
    view: &V,
    draft: &mut Draft,
    lists: &mut Relisted,
    path: &Text,
    above: Meta,
) -> Result<(), NoMemory>
    requires draft { IsDraft (V.state view.now).nodes draft.old.effects draft.old.kept.entries }
    requires child { IsChildPath path.now }
    ensures kept { let now = effected_nodes_by (V.state view.now).nodes draft.old.effects in OnOk result (Notes draft.old.kept.entries draft.new.kept.entries path.now (record { meta = None; kids = brood now path.now }) (parent path.now) (record { meta = Some above; kids = brood now (parent path.now) - 1 })) }
    ensures listed { OnOk result (Lists lists.old.entries lists.new.entries path.now None) }
    ensures effects { OnOk result (draft.new.effects ≡ draft.old.effects) }
{
    keep_list(alloc, lists, path.as_str(), None)?;
    keep_gone(alloc, view, draft, path.as_str(), above)
}

// A node shows these numbers.
fn keep_one<V: View>(
    alloc: Global,
    view: &V,
    draft: &mut Draft,
    path: &Text,
    meta: Meta,
) -> Result<(), NoMemory>
    requires draft { IsDraft (V.state view.now).nodes draft.old.effects draft.old.kept.entries }
    ensures kept { OnOk result (NotesOne draft.old.kept.entries draft.new.kept.entries path.now (record { meta = Some meta; kids = brood (effected_nodes_by (V.state view.now).nodes draft.old.effects) path.now })) }
    ensures effects { OnOk result (draft.new.effects ≡ draft.old.effects) }
{
    keep_set(alloc, view, draft, path.as_str(), meta)
}

// A node has this list, and shows these numbers.
fn keep_acl<V: View>(
    alloc: Global,
    view: &V,
    draft: &mut Draft,
    lists: &mut Relisted,
    path: &Text,
    acl: &Acls,
    meta: Meta,
) -> Result<(), NoMemory>
    requires draft { IsDraft (V.state view.now).nodes draft.old.effects draft.old.kept.entries }
    ensures kept { OnOk result (NotesOne draft.old.kept.entries draft.new.kept.entries path.now (record { meta = Some meta; kids = brood (effected_nodes_by (V.state view.now).nodes draft.old.effects) path.now })) }
    ensures listed { OnOk result (Lists lists.old.entries lists.new.entries path.now (Some acl.now)) }
    ensures effects { OnOk result (draft.new.effects ≡ draft.old.effects) }
{
    keep_list(alloc, lists, path.as_str(), Some(acl.copy(alloc)?))?;
    keep_set(alloc, view, draft, path.as_str(), meta)
}

// A node is there with these numbers, and its parent has one child more.
fn keep_made<V: View>(
    alloc: Global,
    view: &V,
    draft: &mut Draft,
    path: &str,
    meta: Meta,
    above: Meta,
) -> Result<(), NoMemory>
    requires draft { IsDraft (V.state view.now).nodes draft.old.effects draft.old.kept.entries }
    requires child { IsChildPath path.now }
    ensures kept { let now = effected_nodes_by (V.state view.now).nodes draft.old.effects in OnOk result (Notes draft.old.kept.entries draft.new.kept.entries path.now (record { meta = Some meta; kids = brood now path.now }) (parent path.now) (record { meta = Some above; kids = brood now (parent path.now) + 1 })) }
    ensures effects { OnOk result (draft.new.effects ≡ draft.old.effects) }
{
    match kp_path::parent(path) {
        None => Ok(()),
        Some(up) => {
            let kids = brood_in(alloc, view, draft, path)?;
            let siblings = brood_in(alloc, view, draft, up)?;
            let siblings = one_more(siblings)?;
            keep_two(alloc, draft, path, Some(meta), kids, up, above, siblings)
        }
    }
}

// One more than a count.
fn one_more(count: u64) -> Result<u64, NoMemory>
    ensures { IfOk result (λ more. more ≡ count + 1) }
{
    match count.checked_add(1) {
        Some(more) => Ok(more),
        None => Err(NoMemory),
    }
}

// A node is gone, and its parent has one child less.
fn keep_gone<V: View>(
    alloc: Global,
    view: &V,
    draft: &mut Draft,
    path: &str,
    above: Meta,
) -> Result<(), NoMemory>
    requires draft { IsDraft (V.state view.now).nodes draft.old.effects draft.old.kept.entries }
    requires child { IsChildPath path.now }
    ensures kept { let now = effected_nodes_by (V.state view.now).nodes draft.old.effects in OnOk result (Notes draft.old.kept.entries draft.new.kept.entries path.now (record { meta = None; kids = brood now path.now }) (parent path.now) (record { meta = Some above; kids = brood now (parent path.now) - 1 })) }
    ensures effects { OnOk result (draft.new.effects ≡ draft.old.effects) }
{
    match kp_path::parent(path) {
        None => Ok(()),
        Some(up) => {
            let kids = brood_in(alloc, view, draft, path)?;
            let siblings = brood_in(alloc, view, draft, up)?;
            keep_two(
                alloc,
                draft,
                path,
                None,
                kids,
                up,
                above,
                siblings.saturating_sub(1),
            )
        }
    }
}

// A node shows other numbers, and has the children that it had.
fn keep_set<V: View>(
    alloc: Global,
    view: &V,
    draft: &mut Draft,
    path: &str,
    meta: Meta,
) -> Result<(), NoMemory>
    requires draft { IsDraft (V.state view.now).nodes draft.old.effects draft.old.kept.entries }
    ensures kept { OnOk result (NotesOne draft.old.kept.entries draft.new.kept.entries path.now (record { meta = Some meta; kids = brood (effected_nodes_by (V.state view.now).nodes draft.old.effects) path.now })) }
    ensures effects { OnOk result (draft.new.effects ≡ draft.old.effects) }
{
    let kids = brood_in(alloc, view, draft, path)?;
    note(
        alloc,
        &mut draft.kept,
        path,
        Known {
            meta: Some(meta),
            kids,
        },
    )
}

// Keeps what is known of a path and of its parent.
fn keep_two(
    alloc: Global,
    draft: &mut Draft,
    path: &str,
    meta: Option<Meta>,
    kids: u64,
    up: &str,
    above: Meta,
    siblings: u64,
) -> Result<(), NoMemory>
    ensures kept { OnOk result (Notes draft.old.kept.entries draft.new.kept.entries path.now (record { meta = meta; kids = kids }) up.now (record { meta = Some above; kids = siblings })) }
    ensures effects { OnOk result (draft.new.effects ≡ draft.old.effects) }
{
    note(
        alloc,
        &mut draft.kept,
        up,
        Known {
            meta: Some(above),
            kids: siblings,
        },
    )?;
    note(alloc, &mut draft.kept, path, Known { meta, kids })
}

// Keeps the access list of a path.
fn keep_list(
    alloc: Global,
    lists: &mut Relisted,
    path: &str,
    acl: Option<Acls>,
) -> Result<(), NoMemory>
    ensures { OnOk result (Lists lists.old.entries lists.new.entries path.now acl) }
{
    let path = String::from_str(alloc, path)?;
    insert_list(lists, path, acl)
}

// The same of a path with memory of its own.
fn insert_list(lists: &mut Relisted, path: String, acl: Option<Acls>) -> Result<(), NoMemory>
    ensures { OnOk result (Lists lists.old.entries lists.new.entries (string_bytes path) acl) }
{
    lists.insert(path, acl)?;
    Ok(())
}
