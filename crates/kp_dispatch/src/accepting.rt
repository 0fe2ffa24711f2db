// Accepting a connection.
ghost use Rattle.std.specs.Prelude.{◌≡◌};
ghost use Rattle.kp_event.specs.declared.said.Said.TheVariants.{Conn};
ghost use Rattle.kp_event.specs.Kinds.{row_of_said};
ghost use Rattle.kp_shared.specs.Sharing.{IsNodeSeatOf};
ghost use Rattle.kp_dispatch.specs.Ticks.{AcceptTells};

use crate::ends::{Turned, turned_of};
use kp_event::{NodeEventKind, Said, Thought};
use kp_io::Clock;
use kp_shared::{Kept, NodeSeat, SharedNode, think_kept};
use std::sync::Wait;

// What a thought says.
fn said_of<M>(thought: Thought<(u8, M)>) -> Said
where
    M: Drop,
    ensures { result ≡ thought.said }
{
    let Thought { said, .. } = thought;
    said
}

// The number of an accepted connection.
fn number_of(said: Said) -> u64
    requires { row_of_said said ≡ 0 }
    ensures { said ≡ Conn result }
{
    match said {
        Said::Conn(number) => number,
        _ => unreachable!(),
    }
}

/// Accepts a connection, and answers its number. From the draw comes the password of a session that it may open. It makes one
/// turn of one event, and sends nothing. Its error is `Failed` or `Worn`.
pub fn accept<R: Wait, K: Kept, C: Clock>(
    rt: &R,
    seat: &mut NodeSeat<K>,
    node: &SharedNode<K>,
    clock: &C,
    draw: [u8; 16],
) -> Result<u64, Turned>
    requires { IsNodeSeatOf (λ s. K.life s.kept) node.now seat.old }
    ensures seat { IsNodeSeatOf (λ s. K.life s.kept) node.now seat.new }
    ensures tells { AcceptTells (C.may clock.now) seat.old seat.new draw result }
    ensures same { (seat.new.stop ≡ seat.old.stop) × (seat.new.links ≡ seat.old.links) }
{
    match think_kept(
        rt,
        &node.turn,
        &mut seat.turn,
        clock,
        NodeEventKind::Accept { draw },
    ) {
        Ok(thought) => Ok(number_of(said_of(thought))),
        Err(refusal) => Err(turned_of(refusal)),
    }
}
