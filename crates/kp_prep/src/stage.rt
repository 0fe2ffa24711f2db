//! The writes of a plan in the open layer.

ghost use Rattle.std.specs.Prelude.{◌≡◌, true, false, Some, None, IfOk, OnOk, IsTrue};
ghost use Rattle.std.specs.List.{All};
ghost use Rattle.kp_model.specs.Path.{parent, is_well_formed};
ghost use Rattle.kp_cells.specs.Overlays.{IsOpen, all_begun, with_meta, with_content, with_acl, with_child};
ghost use Rattle.kp_act.specs.Effects.{IsFamily, IsFit};
ghost use Rattle.kp_prep.specs.Staged.{staged_effects, staged_plan, given_up, taken_on, staged_effect, staged_session, staged_next};

use kp_act::{Effect, Effects, Plan, Prepared};
use kp_cells::Cells;
use kp_model::{Acls, Bytes, Meta, NoMemory, Session, Text};

/// Stages all that a plan does, and gives its answer. Without memory a part of the writes is staged.
pub(crate) fn carry_out(cells: &mut Cells, plan: Plan) -> Result<Prepared, NoMemory>
    requires open { IsOpen cells.old }
    requires fit { All IsFit plan.effects }
    ensures answer { IfOk result (λ p. p ≡ plan.prepared) }
    ensures staged { OnOk result (cells.new ≡ staged_plan cells.old plan) }
    ensures beneath { all_begun cells.new ≡ all_begun cells.old }
    ensures open { IsOpen cells.new }
{
    let Plan {
        prepared,
        session,
        next,
        effects,
    } = plan;
    stage_session(cells, session)?;
    stage_next(cells, next)?;
    stage_effects(cells, effects)?;
    Ok(prepared)
}

// Stages a session that is set or goes, where there is one.
fn stage_session(cells: &mut Cells, session: Option<(u64, Option<Session>)>) -> Result<(), NoMemory>
    requires { IsOpen cells.old }
    ensures staged { OnOk result (cells.new ≡ staged_session cells.old session) }
    ensures beneath { all_begun cells.new ≡ all_begun cells.old }
    ensures open { IsOpen cells.new }
{
    match session {
        None => Ok(()),
        Some((id, session)) => cells.stage_session(id, session),
    }
}

// Stages the next session number, where there is one.
fn stage_next(cells: &mut Cells, next: Option<u64>) -> Result<(), NoMemory>
    requires { IsOpen cells.old }
    ensures staged { OnOk result (cells.new ≡ staged_next cells.old next) }
    ensures beneath { all_begun cells.new ≡ all_begun cells.old }
    ensures open { IsOpen cells.new }
{
    match next {
        None => Ok(()),
        Some(next) => cells.stage_next(next),
    }
}

// Stages effects, one after the other.
fn stage_effects(cells: &mut Cells, effects: Effects) -> Result<(), NoMemory>
    requires open { IsOpen cells.old }
    requires fit { All IsFit effects }
    ensures staged { OnOk result (cells.new ≡ staged_effects cells.old effects) }
    ensures beneath { all_begun cells.new ≡ all_begun cells.old }
    ensures open { IsOpen cells.new }
{
    for effect in effects.into_vec() {
        stage_effect(cells, effect)?;
    }
    Ok(())
}

// Stages an effect.
fn stage_effect(cells: &mut Cells, effect: Effect) -> Result<(), NoMemory>
    requires open { IsOpen cells.old }
    requires fit { IsFit effect }
    ensures staged { OnOk result (cells.new ≡ staged_effect cells.old effect) }
    ensures beneath { all_begun cells.new ≡ all_begun cells.old }
    ensures open { IsOpen cells.new }
{
    match effect {
        Effect::Nothing => Ok(()),
        Effect::Make {
            path,
            bytes,
            acl,
            meta,
            up,
        } => stage_made(cells, path.as_str(), bytes, acl, meta, up),
        Effect::Remove { path, up, owner } => stage_gone(cells, path.as_str(), up, owner),
        Effect::Set { path, bytes, meta } => stage_set(cells, path.as_str(), bytes, meta),
        Effect::SetAcl { path, acl, meta } => stage_set_acl(cells, path.as_str(), acl, meta),
    }
}

// Stages a parent's numbers.
fn stage_up(cells: &mut Cells, path: &str, up: Meta) -> Result<(), NoMemory>
    requires open { IsOpen cells.old }
    requires family { IsFamily path.now }
    ensures staged { OnOk result (cells.new ≡ with_meta cells.old (parent path.now) (Some up)) }
    ensures beneath { all_begun cells.new ≡ all_begun cells.old }
    ensures open { IsOpen cells.new }
{
    match kp_path::parent(path) {
        None => Ok(()),
        Some(above) => cells.stage_meta(above, Some(up)),
    }
}

// Stages a node that is made, and its parent's numbers.
fn stage_made(
    cells: &mut Cells,
    path: &str,
    bytes: Bytes,
    acl: Acls,
    meta: Meta,
    up: Meta,
) -> Result<(), NoMemory>
    requires open { IsOpen cells.old }
    requires family { IsFamily path.now }
    ensures staged { OnOk result (cells.new ≡ taken_on (with_child (with_acl (with_content (with_meta (with_meta cells.old (parent path.now) (Some up)) path.now (Some meta)) path.now (Some bytes)) path.now (Some acl)) path.now true) meta.owner path.now) }
    ensures beneath { all_begun cells.new ≡ all_begun cells.old }
    ensures open { IsOpen cells.new }
{
    stage_up(cells, path, up)?;
    cells.stage_meta(path, Some(meta))?;
    cells.stage_content(path, Some(bytes))?;
    cells.stage_acl(path, Some(acl))?;
    cells.stage_child(path, true)?;
    take_on(cells, path, meta.owner)
}

// Stages that a session owns a node, where it has one.
fn take_on(cells: &mut Cells, path: &str, owner: u64) -> Result<(), NoMemory>
    requires open { IsOpen cells.old }
    requires path { IsTrue (is_well_formed path.now) }
    ensures staged { OnOk result (cells.new ≡ taken_on cells.old owner path.now) }
    ensures beneath { all_begun cells.new ≡ all_begun cells.old }
    ensures open { IsOpen cells.new }
{
    if owner == 0 {
        Ok(())
    } else {
        cells.stage_owned(path, owner, true)
    }
}

// Stages that a node is removed, and its parent's numbers.
fn stage_gone(cells: &mut Cells, path: &str, up: Meta, owner: u64) -> Result<(), NoMemory>
    requires open { IsOpen cells.old }
    requires family { IsFamily path.now }
    ensures staged { OnOk result (cells.new ≡ given_up (with_child (with_acl (with_content (with_meta (with_meta cells.old (parent path.now) (Some up)) path.now None) path.now None) path.now None) path.now false) owner path.now) }
    ensures beneath { all_begun cells.new ≡ all_begun cells.old }
    ensures open { IsOpen cells.new }
{
    stage_up(cells, path, up)?;
    cells.stage_meta(path, None)?;
    cells.stage_content(path, None)?;
    cells.stage_acl(path, None)?;
    cells.stage_child(path, false)?;
    give_up(cells, path, owner)
}

// Stages that a node's session gives it up, where it has one.
fn give_up(cells: &mut Cells, path: &str, owner: u64) -> Result<(), NoMemory>
    requires open { IsOpen cells.old }
    requires path { IsTrue (is_well_formed path.now) }
    ensures staged { OnOk result (cells.new ≡ given_up cells.old owner path.now) }
    ensures beneath { all_begun cells.new ≡ all_begun cells.old }
    ensures open { IsOpen cells.new }
{
    if owner == 0 {
        Ok(())
    } else {
        cells.stage_owned(path, owner, false)
    }
}

// Stages the data of a node.
fn stage_set(cells: &mut Cells, path: &str, bytes: Bytes, meta: Meta) -> Result<(), NoMemory>
    requires open { IsOpen cells.old }
    requires path { IsTrue (is_well_formed path.now) }
    ensures staged { OnOk result (cells.new ≡ with_content (with_meta cells.old path.now (Some meta)) path.now (Some bytes)) }
    ensures beneath { all_begun cells.new ≡ all_begun cells.old }
    ensures open { IsOpen cells.new }
{
    cells.stage_meta(path, Some(meta))?;
    cells.stage_content(path, Some(bytes))
}

// Stages the access list of a node.
fn stage_set_acl(cells: &mut Cells, path: &str, acl: Acls, meta: Meta) -> Result<(), NoMemory>
    requires open { IsOpen cells.old }
    requires path { IsTrue (is_well_formed path.now) }
    ensures staged { OnOk result (cells.new ≡ with_acl (with_meta cells.old path.now (Some meta)) path.now (Some acl)) }
    ensures beneath { all_begun cells.new ≡ all_begun cells.old }
    ensures open { IsOpen cells.new }
{
    cells.stage_meta(path, Some(meta))?;
    cells.stage_acl(path, Some(acl))
}
