// One task of a worker.
ghost use Rattle.std.specs.Prelude.{◌≡◌};
ghost use Rattle.kp_event.specs.declared.fail.KeptFail.{KeptFail};
ghost use Rattle.kp_shared.specs.declared.refusal.Refusal.TheVariants.{Failed};
ghost use Rattle.kp_shared.specs.Ends.{IsUntorn};
ghost use Rattle.kp_shared.specs.Nodes.{FlushTells, IsNodeTurn, ThinkAsks, ThinkTells};

use crate::kept::{Kept, Served};
use crate::refusal::Refusal;
use crate::task::{Answer, Task};
use kp_event::{KeptFail, NodeEvent, NodeEventKind, Thought};
use kp_io::Clock;
use kp_turn::{Turn, TurnSeat};
use std::sync::Wait;

// Why a turn is cut short whose task was refused so.
fn refused(fail: KeptFail) -> Refusal
    requires { IsUntorn fail }
    ensures is { result ≡ Failed fail }
    ensures untorn { IsUntorn fail }
{
    Refusal::Failed(fail)
}

/// Has the node think one event at the present time. Nothing of the thought may leave before a flush.
pub fn think<R: Wait, K: Kept, C: Clock>(
    rt: &R,
    turn: &Turn<Served<K>>,
    seat: &mut TurnSeat<Served<K>>,
    clock: &C,
    kind: NodeEventKind<K::Mail>,
) -> Result<Thought<(u8, K::Mail)>, Refusal>
    requires { IsNodeTurn (λ s. K.life s.kept) turn.now seat.old }
    ensures seat { IsNodeTurn (λ s. K.life s.kept) turn.now seat.new }
    ensures tells { ThinkTells (C.may clock.now) kind result seat.old seat.new }
    ensures asks { ThinkAsks (C.may clock.now) kind result seat.old seat.new }
{
    let now = clock.now();
    match turn.with(rt, seat, Task::Think(NodeEvent { now, kind })) {
        Ok(Ok(Answer::Thought(thought))) => Ok(thought),
        Ok(Ok(Answer::Kept(_))) => unreachable!(),
        Ok(Err(fail)) => Err(refused(fail)),
        Err(_) => Err(Refusal::Worn),
    }
}

/// Has the node keep all that was thought, by whichever worker. The answer is the number of the last thought.
pub fn flush<R: Wait, K: Kept>(
    rt: &R,
    turn: &Turn<Served<K>>,
    seat: &mut TurnSeat<Served<K>>,
) -> Result<u64, Refusal>
    requires { IsNodeTurn (λ s. K.life s.kept) turn.now seat.old }
    ensures seat { IsNodeTurn (λ s. K.life s.kept) turn.now seat.new }
    ensures tells { FlushTells result seat.old seat.new }
{
    match turn.with(rt, seat, Task::Flush) {
        Ok(Ok(Answer::Kept(number))) => Ok(number),
        Ok(Ok(Answer::Thought(_))) => unreachable!(),
        Ok(Err(fail)) => Err(refused(fail)),
        Err(_) => Err(Refusal::Worn),
    }
}
