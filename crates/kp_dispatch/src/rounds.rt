// A turn of a connection's worker: what came is thought, the connection is drained, all is kept, and then it leaves.
ghost use Rattle.std.specs.Prelude.{◌≡◌, Some};
ghost use Rattle.kp_event.specs.declared.said.Said.TheVariants.{Out};
ghost use Rattle.kp_event.specs.Kinds.{row_of_said};
ghost use Rattle.kp_shared.specs.Nodes.{IsNodeTurn};
ghost use Rattle.kp_shared.specs.Posts.{HasSeats, Posts};
ghost use Rattle.kp_shared.specs.Sharing.{IsNodeSeatOf};
ghost use Rattle.kp_shared.specs.Tasks.{bad_of, mails_of};
ghost use Rattle.kp_dispatch.specs.Rounds.{BehindTells, FrontTells, IsRound, LeaveTells, RoundTells, TurnTells, first_bad, first_of, judged, thoughts_of};

use crate::ends::{ConnEnd, end_of};
use crate::output::write_out;
use crate::plans::plan_front;
use kp_event::{FedWord, KeptFail, NodeEventKind, OutPiece, Said, Thought};
use kp_io::{Clock, Sink};
use kp_links::{LinkSeat, Links};
use kp_model::Bytes;
use kp_shared::{
    Kept, NodeSeat, Peers, Refusal, Served, SharedNode, Told, post_thought, think_kept, think_plan,
};
use kp_turn::{Turn, TurnSeat};
use std::alloc::Global;
use std::sync::Wait;

/// The thoughts of a turn, which are kept.
struct Round<M> {
    front: Vec<Thought<(u8, M)>>,
    drained: Thought<(u8, M)>,
}

// Thinks what came, where something came. Nothing of it is kept yet.
fn think_front<R: Wait, K: Kept, C: Clock>(
    rt: &R,
    alloc: Global,
    conn: u64,
    turn: &Turn<Served<K>>,
    seat: &mut TurnSeat<Served<K>>,
    clock: &C,
    told: &mut Told,
    piece: Option<Bytes>,
) -> Result<Vec<Thought<(u8, K::Mail)>>, Refusal>
    requires { IsNodeTurn (λ s. K.life s.kept) turn.now seat.old }
    ensures seat { IsNodeTurn (λ s. K.life s.kept) turn.now seat.new }
    ensures tells { FrontTells (C.may clock.now) conn (λ v. v.items) piece result seat.old seat.new }
{
    let Ok(plan) = plan_front(alloc, conn, piece) else {
        return Err(Refusal::Failed(KeptFail::NoMemory));
    };
    let mut front = Vec::new(alloc);
    match think_plan(rt, turn, seat, clock, told, plan, &mut front) {
        Ok(()) => Ok(front),
        Err(refusal) => {
            drop(front);
            Err(refusal)
        }
    }
}

// Thinks what the connection has to say, and keeps it behind what came.
fn think_behind<R: Wait, K: Kept, C: Clock>(
    rt: &R,
    conn: u64,
    turn: &Turn<Served<K>>,
    seat: &mut TurnSeat<Served<K>>,
    clock: &C,
    front: Vec<Thought<(u8, K::Mail)>>,
) -> Result<Round<K::Mail>, Refusal>
    requires { IsNodeTurn (λ s. K.life s.kept) turn.now seat.old }
    ensures seat { IsNodeTurn (λ s. K.life s.kept) turn.now seat.new }
    ensures tells { BehindTells (C.may clock.now) conn front.items result seat.old seat.new }
{
    match think_kept(rt, turn, seat, clock, NodeEventKind::Drain { conn }) {
        Ok(drained) => Ok(Round { front, drained }),
        Err(refusal) => {
            drop(front);
            Err(refusal)
        }
    }
}

// Thinks what came and what the connection has to say, and keeps both.
fn think_round<R: Wait, K: Kept, C: Clock>(
    rt: &R,
    alloc: Global,
    conn: u64,
    turn: &Turn<Served<K>>,
    seat: &mut TurnSeat<Served<K>>,
    clock: &C,
    told: &mut Told,
    piece: Option<Bytes>,
) -> Result<Round<K::Mail>, Refusal>
    requires { IsNodeTurn (λ s. K.life s.kept) turn.now seat.old }
    ensures seat { IsNodeTurn (λ s. K.life s.kept) turn.now seat.new }
    ensures tells { RoundTells (C.may clock.now) conn piece result seat.old seat.new }
{
    match think_front(rt, alloc, conn, turn, seat, clock, told, piece) {
        Ok(front) => think_behind(rt, conn, turn, seat, clock, front),
        Err(refusal) => Err(refusal),
    }
}

// The place of a frame outside the grammar.
fn bad_place(said: &Said) -> Option<u64>
    ensures { result ≡ bad_of said.now }
{
    match said {
        Said::Fed(FedWord::Bad { at }) => Some(*at),
        _ => None,
    }
}

// The first of two places.
fn first_place(one: Option<u64>, two: Option<u64>) -> Option<u64>
    ensures { result ≡ first_of one two }
{
    match one {
        Some(at) => Some(at),
        None => two,
    }
}

// Sends the mail of what was thought before the drain. The answer is the place of a frame outside the grammar.
fn post_front<R: Wait, M: Drop>(
    rt: &R,
    links: &Peers<Links<M>>,
    seats: &mut Peers<LinkSeat<M>>,
    front: Vec<Thought<(u8, M)>>,
) -> Option<u64>
    requires seats { HasSeats links.now seats.old }
    ensures seats { HasSeats links.now seats.new }
    ensures posts { Posts (mails_of front.items) seats.old seats.new }
    ensures bad { result ≡ first_bad front.items }
{
    let mut bad = None;
    for thought in front {
        let said = post_thought(rt, links, seats, thought);
        bad = first_place(bad, bad_place(&said));
        drop(said);
    }
    bad
}

// What a drain says.
fn drained_piece(said: Said) -> Option<OutPiece>
    requires { row_of_said said ≡ 3 }
    ensures { said ≡ Out result }
{
    match said {
        Said::Out(piece) => piece,
        _ => unreachable!(),
    }
}

// How a turn ends. A failed write comes first, and then a frame outside the grammar.
fn judge(bad: Option<u64>, written: Result<(), ConnEnd>) -> Result<(), ConnEnd>
    ensures { result ≡ judged bad written }
{
    match (bad, written) {
        (_, Err(ConnEnd::WriteFault)) => Err(ConnEnd::WriteFault),
        (Some(at), _) => Err(ConnEnd::BadFrame { at }),
        (None, written) => written,
    }
}

// Sends the mail of a turn that was kept, and writes what it drained.
fn leave<R: Wait, W: Sink, M: Drop>(
    rt: &R,
    links: &Peers<Links<M>>,
    seats: &mut Peers<LinkSeat<M>>,
    output: &mut W,
    round: Round<M>,
) -> Result<(), ConnEnd>
    requires seats { HasSeats links.now seats.old }
    requires round { IsRound round }
    ensures seats { HasSeats links.now seats.new }
    ensures posts { Posts (mails_of (thoughts_of round)) seats.old seats.new }
    ensures tells { LeaveTells (W.held output.old) (W.held output.new) (W.faults output.old) (W.faults output.new) (thoughts_of round) result }
{
    let Round { front, drained } = round;
    let bad = post_front(rt, links, seats, front);
    let said = post_thought(rt, links, seats, drained);
    let written = write_out(output, drained_piece(said));
    judge(bad, written)
}

/// One turn.
pub(crate) fn turn_round<R: Wait, K: Kept, W: Sink, C: Clock>(
    rt: &R,
    alloc: Global,
    conn: u64,
    node: &SharedNode<K>,
    seat: &mut NodeSeat<K>,
    output: &mut W,
    clock: &C,
    piece: Option<Bytes>,
) -> Result<(), ConnEnd>
    requires { IsNodeSeatOf (λ s. K.life s.kept) node.now seat.old }
    ensures seat { IsNodeSeatOf (λ s. K.life s.kept) node.now seat.new }
    ensures tells { TurnTells (C.may clock.now) conn (W.held output.old) (W.held output.new) (W.faults output.old) (W.faults output.new) seat.old seat.new piece result }
{
    match think_round(
        rt,
        alloc,
        conn,
        &node.turn,
        &mut seat.turn,
        clock,
        &mut seat.told,
        piece,
    ) {
        Ok(round) => leave(rt, &node.links, &mut seat.links, output, round),
        Err(refusal) => Err(end_of(refusal)),
    }
}
