// The steps of a worker's turn.
ghost use Rattle.std.specs.Prelude.{◌≡◌, IfOk};
ghost use Rattle.kp_dispatch.specs.Plans.{carry_plan, front_plan, tick_plan};

use kp_event::NodeEventKind;
use kp_model::Bytes;
use kp_shared::Step;
use std::alloc::{AllocError, Global};

/// What a connection's worker thinks of what came, before it drains.
pub(crate) fn plan_front<M>(
    alloc: Global,
    conn: u64,
    piece: Option<Bytes>,
) -> Result<Vec<Step<M>>, AllocError>
    ensures { IfOk result (λ plan. plan.items ≡ front_plan conn piece) }
{
    let Some(bytes) = piece else {
        return Ok(Vec::new(alloc));
    };
    let mut plan = Vec::with_capacity(alloc, 3)?;
    plan.push_reserved(Step::Event(NodeEventKind::Client { conn, bytes }));
    plan.push_reserved(Step::MaybeCommits);
    plan.push_reserved(Step::MaybeBeat);
    Ok(plan)
}

/// What a ticker thinks.
pub(crate) fn plan_tick<M>(
    alloc: Global,
    timeout: bool,
    snapshot: bool,
) -> Result<Vec<Step<M>>, AllocError>
    ensures { IfOk result (λ plan. plan.items ≡ tick_plan timeout snapshot) }
{
    let mut plan = Vec::with_capacity(alloc, 5)?;
    if timeout {
        plan.push_reserved(Step::Event(NodeEventKind::Timeout));
    }
    plan.push_reserved(Step::Event(NodeEventKind::Beat));
    plan.push_reserved(Step::Commits);
    plan.push_reserved(Step::Event(NodeEventKind::ExpireDue));
    if snapshot {
        plan.push_reserved(Step::Event(NodeEventKind::Snapshot));
    }
    Ok(plan)
}

/// What is thought of a message of another node.
pub(crate) fn plan_carry<M: Drop>(alloc: Global, mail: M) -> Result<Vec<Step<M>>, AllocError>
    ensures { IfOk result (λ plan. plan.items ≡ carry_plan mail) }
{
    let mut plan = Vec::with_capacity(alloc, 3)?;
    plan.push_reserved(Step::Event(NodeEventKind::Deliver(mail)));
    plan.push_reserved(Step::Commits);
    plan.push_reserved(Step::MaybeBeat);
    Ok(plan)
}
