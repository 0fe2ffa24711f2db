//! The end of a session: its nodes go, and then the session.

ghost use Rattle.std.specs.Prelude.{◌≡◌, [], ◌++◌, ℕ, IfOk, IsSome, OnOk};
ghost use Rattle.std.specs.List.{flat_map};
ghost use Rattle.std.specs.FinMap as map;
ghost use Rattle.kp_model.specs.Good.{IsGood};
ghost use Rattle.kp_model.specs.State.{Sessions};
ghost use Rattle.kp_model.specs.Step.{closed, removal_events};
ghost use Rattle.kp_model.specs.Touched.{touched_in};
ghost use Rattle.kp_model.specs.declared.command.Cmd.TheVariants as cmd;
ghost use Rattle.kp_draft.specs.Closing.{AreLeaves, closing_plan};
ghost use Rattle.kp_draft.specs.Drafts.{IsDraft, removals};
ghost use Rattle.kp_act.specs.Plans.{IsPlan};

use crate::draft::{Draft, blank, remove};
use kp_act::{Effects, Plan, Prepared, parent_of};
use kp_model::{Event, Events, NoMemory, Reply, Text, View};
use std::alloc::Global;

/// What the end of a session at an index does: the nodes that it owns go in ascending order of their paths, and then
/// the session. It costs what the session owns.
pub fn close<V: View>(alloc: Global, view: &V, index: u64, id: u64) -> Result<Plan, NoMemory>
    requires good { IsGood (V.state view.now) }
    requires live { IsSome (map.get (V.state view.now).sessions id) }
    ensures { let s = V.state view.now in (applied : ℕ) (sessions : Sessions) → map.remove sessions id ≡ map.remove s.sessions id → IfOk result (IsPlan (touched_in s id cmd.CloseSession) s (closed (record s { applied = applied; sessions = sessions }) index id)) }
{
    match view.owned(alloc, id) {
        Err(refused) => Err(refused),
        Ok(paths) => close_of(alloc, view, index, id, paths.as_slice()),
    }
}

// The same of a session that owns the nodes at these paths.
fn close_of<V: View>(
    alloc: Global,
    view: &V,
    index: u64,
    id: u64,
    paths: &[Text],
) -> Result<Plan, NoMemory>
    requires { AreLeaves (V.state view.now).nodes id paths.now }
    ensures { IfOk result (λ p. p ≡ closing_plan index id (V.state view.now).nodes paths.now) }
{
    let effects = removals(alloc, view, index, id, paths)?;
    let events = events_of(alloc, paths)?;
    Ok(Plan {
        prepared: Prepared {
            reply: Reply::Done,
            events,
        },
        session: Some((id, None)),
        next: None,
        effects,
    })
}

// The removals of the nodes at these paths.
fn removals<V: View>(
    alloc: Global,
    view: &V,
    index: u64,
    id: u64,
    paths: &[Text],
) -> Result<Effects, NoMemory>
    requires { AreLeaves (V.state view.now).nodes id paths.now }
    ensures { IfOk result (λ es. es ≡ removals index id (V.state view.now).nodes paths.now) }
{
    let mut draft = blank(alloc);
    let removed = remove_all(alloc, view, index, id, paths, &mut draft);
    let Draft { effects, kept } = draft;
    drop(kept);
    match removed {
        Ok(()) => Ok(effects),
        Err(refused) => Err(refused),
    }
}

// Removes the nodes at these paths, one after the other.
fn remove_all<V: View>(
    alloc: Global,
    view: &V,
    index: u64,
    id: u64,
    paths: &[Text],
    draft: &mut Draft,
) -> Result<(), NoMemory>
    requires leaves { AreLeaves (V.state view.now).nodes id paths.now }
    requires none { draft.old.effects ≡ [] }
    requires draft { IsDraft (V.state view.now).nodes draft.old.effects draft.old.kept.entries }
    ensures { OnOk result (draft.new.effects ≡ removals index id (V.state view.now).nodes paths.now) }
{
    for path in paths {
        remove(alloc, view, draft, index, id, path.as_str())?;
    }
    Ok(())
}

// The events of the removals, in their order.
fn events_of(alloc: Global, paths: &[Text]) -> Result<Events, NoMemory>
    ensures { IfOk result (λ events. events ≡ flat_map removal_events paths.now) }
{
    let mut events = Events::new(alloc);
    for path in paths {
        push_events(alloc, &mut events, path)?;
    }
    Ok(events)
}

// Adds the events of the removal of a node.
fn push_events(alloc: Global, events: &mut Events, path: &Text) -> Result<(), NoMemory>
    ensures { OnOk result (events.new ≡ events.old ++ removal_events path.now) }
{
    let up = parent_of(alloc, path.as_str())?;
    events.push(Event::Deleted(path.copy(alloc)?))?;
    events.push(Event::ChildrenChanged(up))?;
    Ok(())
}
