//! The changes of an entry, as a list.

ghost use Rattle.std.specs.Prelude.{◌≡◌, ◌+◌, ◌++◌, IfOk, OnOk, IsTrue};
ghost use Rattle.std.specs.List.{All, list_all};
ghost use Rattle.std.specs.FinMap as map;
ghost use Rattle.kp_model.specs.Good.{IsGood};
ghost use Rattle.kp_model.specs.Path.{parent};
ghost use Rattle.kp_model.specs.State.{State};
ghost use Rattle.kp_model.specs.Step.{apply};
ghost use Rattle.kp_prep.specs.Changing.{set_all, fits_change, session_changes, next_changes, effect_changes, node_changes, renumbered_value, refilled_value, relisted_value, plan_changes, effects_changes};
ghost use Rattle.kp_act.specs.Effects.{IsFamily, IsFit};
ghost use Rattle.kp_prep.specs.Ledgers.{IsLedger, nodes_behind};

use crate::entry::plan;
use crate::ledger::{Ledger, acl, begin, change, content, end};
use kp_act::{Effect, Effects, Plan, Prepared};
use kp_cells::{Change, Changes, NodeValue, copied_acl};
use kp_model::{Acls, Bytes, Entry, Meta, NoMemory, Session, Text, View};
use std::alloc::Global;

/// What an entry is answered, and what it changes.
#[derive(Drop)]
pub struct Decided {
    pub prepared: Prepared,
    /// The changes in the order in which they are set.
    pub changes: Changes,
}

impl Decided {
    /// An equal value with memory of its own.
    pub fn copy(&self, alloc: Global) -> Result<Decided, NoMemory>
        ensures { IfOk result (λ made. made ≡ self.now) }
    {
        Ok(Decided {
            prepared: self.prepared.copy(alloc)?,
            changes: self.changes.copy(alloc)?,
        })
    }
}

/// What an entry of this index is answered, and its changes: set in their order, they make of the nodes, the
/// sessions and the next session number those behind the entry. The data of each node that is set fits its length
/// field. The view stays as it is.
pub fn decide<V: View>(
    alloc: Global,
    view: &V,
    index: u64,
    entry: &Entry,
) -> Result<Decided, NoMemory>
    requires good { IsGood (V.state view.now) }
    requires next { (V.state view.now).applied + 1 ≡ index }
    ensures reply { IfOk result (λ d. d.prepared.reply ≡ (apply (V.state view.now) entry.now).reply) }
    ensures events { IfOk result (λ d. d.prepared.events ≡ (apply (V.state view.now) entry.now).events) }
    ensures changes { let s = V.state view.now in IfOk result (λ d. set_all s d.changes ≡ record (apply s entry.now).state { applied = s.applied }) }
    ensures fits { IfOk result (λ d. IsTrue (list_all fits_change d.changes)) }
{
    let found = plan(alloc, view, index, entry)?;
    listed(alloc, view, found)
}

// The answer of a plan, and its changes.
fn listed<V: View>(alloc: Global, view: &V, plan: Plan) -> Result<Decided, NoMemory>
    requires fit { All IsFit plan.effects }
    ensures answer { IfOk result (λ d. d.prepared ≡ plan.prepared) }
    ensures changes { IfOk result (λ d. d.changes ≡ plan_changes (V.state view.now).nodes plan) }
{
    let Plan {
        prepared,
        session,
        next,
        effects,
    } = plan;
    let mut changes = Changes::new(alloc);
    push_session(&mut changes, session)?;
    push_next(&mut changes, next)?;
    Ok(Decided {
        prepared,
        changes: with_effects(alloc, view, changes, effects)?,
    })
}

// Adds the change of a session that is set or goes, where there is one.
fn push_session(
    changes: &mut Changes,
    session: Option<(u64, Option<Session>)>,
) -> Result<(), NoMemory>
    ensures { OnOk result (changes.new ≡ changes.old ++ session_changes session) }
{
    match session {
        None => Ok(()),
        Some((id, session)) => changes.push(Change::Session(id, session)),
    }
}

// Adds the change of the next session number, where there is one.
fn push_next(changes: &mut Changes, next: Option<u64>) -> Result<(), NoMemory>
    ensures { OnOk result (changes.new ≡ changes.old ++ next_changes next) }
{
    match next {
        None => Ok(()),
        Some(next) => changes.push(Change::NextSession(next)),
    }
}

// These changes, which change no node, and then those of effects.
fn with_effects<V: View>(
    alloc: Global,
    view: &V,
    changes: Changes,
    effects: Effects,
) -> Result<Changes, NoMemory>
    requires fit { All IsFit effects }
    requires none { nodes_behind (V.state view.now) changes ≡ (V.state view.now).nodes }
    ensures { IfOk result (λ cs. cs ≡ changes ++ effects_changes (V.state view.now).nodes effects) }
{
    let mut ledger = begin(alloc, changes);
    push_effects(alloc, view, &mut ledger, effects)?;
    Ok(end(ledger))
}

// Adds the changes of effects, of each on the nodes behind those before it.
fn push_effects<V: View>(
    alloc: Global,
    view: &V,
    ledger: &mut Ledger,
    effects: Effects,
) -> Result<(), NoMemory>
    requires fit { All IsFit effects }
    requires ledger { IsLedger (V.state view.now) ledger.old.changes ledger.old.places.entries }
    ensures { OnOk result (ledger.new.changes ≡ ledger.old.changes ++ effects_changes (nodes_behind (V.state view.now) ledger.old.changes) effects) }
{
    for effect in effects.into_vec() {
        push_effect(alloc, view, ledger, effect)?;
    }
    Ok(())
}

// Adds the changes of an effect.
fn push_effect<V: View>(
    alloc: Global,
    view: &V,
    ledger: &mut Ledger,
    effect: Effect,
) -> Result<(), NoMemory>
    requires fit { IsFit effect }
    requires ledger { IsLedger (V.state view.now) ledger.old.changes ledger.old.places.entries }
    ensures changes { OnOk result (ledger.new.changes ≡ ledger.old.changes ++ effect_changes (nodes_behind (V.state view.now) ledger.old.changes) effect) }
    ensures ledger { OnOk result (IsLedger (V.state view.now) ledger.new.changes ledger.new.places.entries) }
{
    match effect {
        Effect::Nothing => Ok(()),
        Effect::Make {
            path,
            bytes,
            acl,
            meta,
            up,
        } => {
            push_up(alloc, view, ledger, path.as_str(), up)?;
            change(alloc, ledger, path, Some(NodeValue { bytes, acl, meta }))
        }
        Effect::Remove { path, up, .. } => {
            push_up(alloc, view, ledger, path.as_str(), up)?;
            change(alloc, ledger, path, None)
        }
        Effect::Set { path, bytes, meta } => {
            let node = refilled(alloc, view, ledger, path.as_str(), bytes, meta)?;
            push_node(alloc, ledger, path, node)
        }
        Effect::SetAcl { path, acl, meta } => {
            let node = relisted(alloc, view, ledger, path.as_str(), acl, meta)?;
            push_node(alloc, ledger, path, node)
        }
    }
}

// Adds that the parent of a path shows these numbers.
fn push_up<V: View>(
    alloc: Global,
    view: &V,
    ledger: &mut Ledger,
    path: &str,
    up: Meta,
) -> Result<(), NoMemory>
    requires family { IsFamily path.now }
    requires ledger { IsLedger (V.state view.now) ledger.old.changes ledger.old.places.entries }
    ensures changes { OnOk result (ledger.new.changes ≡ ledger.old.changes ++ node_changes (parent path.now) (renumbered_value up (map.get (nodes_behind (V.state view.now) ledger.old.changes) (parent path.now)))) }
    ensures ledger { OnOk result (IsLedger (V.state view.now) ledger.new.changes ledger.new.places.entries) }
{
    match kp_path::parent(path) {
        None => Ok(()),
        Some(above) => {
            let node = renumbered(alloc, view, ledger, above, up)?;
            push_node(alloc, ledger, Text::from_str(alloc, above)?, node)
        }
    }
}

// Adds that a node is set, where there is a value for it.
fn push_node(
    alloc: Global,
    ledger: &mut Ledger,
    path: Text,
    node: Option<NodeValue>,
) -> Result<(), NoMemory>
    ensures changes { OnOk result (ledger.new.changes ≡ ledger.old.changes ++ node_changes path node) }
    ensures ledger { OnOk result ((s : State) → IsLedger s ledger.old.changes ledger.old.places.entries → IsLedger s ledger.new.changes ledger.new.places.entries) }
{
    match node {
        None => Ok(()),
        Some(node) => change(alloc, ledger, path, Some(node)),
    }
}

// The node at a path behind the changes, with other numbers; None where there is none.
fn renumbered<V: View>(
    alloc: Global,
    view: &V,
    ledger: &Ledger,
    path: &str,
    meta: Meta,
) -> Result<Option<NodeValue>, NoMemory>
    requires { IsLedger (V.state view.now) ledger.now.changes ledger.now.places.entries }
    ensures { IfOk result (λ v. v ≡ renumbered_value meta (map.get (nodes_behind (V.state view.now) ledger.now.changes) path.now)) }
{
    match content(view, ledger, path) {
        None => Ok(None),
        Some(bytes) => {
            let bytes = Bytes::from_vec(Vec::from_slice(alloc, bytes)?);
            refilled(alloc, view, ledger, path, bytes, meta)
        }
    }
}

// The node at a path behind the changes, with other data and numbers; None where there is none.
fn refilled<V: View>(
    alloc: Global,
    view: &V,
    ledger: &Ledger,
    path: &str,
    bytes: Bytes,
    meta: Meta,
) -> Result<Option<NodeValue>, NoMemory>
    requires { IsLedger (V.state view.now) ledger.now.changes ledger.now.places.entries }
    ensures { IfOk result (λ v. v ≡ refilled_value bytes meta (map.get (nodes_behind (V.state view.now) ledger.now.changes) path.now)) }
{
    match acl(view, ledger, path) {
        None => Ok(None),
        Some(acl) => Ok(Some(NodeValue {
            bytes,
            acl: copied_acl(alloc, acl)?,
            meta,
        })),
    }
}

// The node at a path behind the changes, with another list and numbers; None where there is none.
fn relisted<V: View>(
    alloc: Global,
    view: &V,
    ledger: &Ledger,
    path: &str,
    acl: Acls,
    meta: Meta,
) -> Result<Option<NodeValue>, NoMemory>
    requires { IsLedger (V.state view.now) ledger.now.changes ledger.now.places.entries }
    ensures { IfOk result (λ v. v ≡ relisted_value acl meta (map.get (nodes_behind (V.state view.now) ledger.now.changes) path.now)) }
{
    match content(view, ledger, path) {
        None => Ok(None),
        Some(bytes) => Ok(Some(NodeValue {
            bytes: Bytes::from_vec(Vec::from_slice(alloc, bytes)?),
            acl,
            meta,
        })),
    }
}
