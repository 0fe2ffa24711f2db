// Making a node that threads share, and its seats.
ghost use Rattle.std.specs.Prelude.{◌≡◌, ◌≤◌, ◌+◌, length, IfOk, OnOk, None};
ghost use Rattle.kp_links.specs.LinkSeats.{IsLinkSeatOf};
ghost use Rattle.kp_turn.specs.StopRule.{with_set};
ghost use Rattle.kp_turn.specs.StopSeats.{stop_view};
ghost use Rattle.kp_turn.specs.TurnSeats.{view};
ghost use Rattle.kp_turn.specs.TurnView.{SeesMore, own};
ghost use Rattle.kp_shared.specs.Members.{HasPeers, is_peer, is_there};
ghost use Rattle.kp_shared.specs.Posts.{HasSeat, HasSeats};
ghost use Rattle.kp_shared.specs.Sharing.{AreBlank, HasSplit, IsBlank, IsFirstSeat, IsNewSeat, IsNodeSeatOf, SplitSeats, Splits};
ghost use Rattle.kp_shared.specs.TaskSteps.{IsAlive};

use crate::kept::{Kept, Served};
use crate::node::{NodeOf, NodeSeat, NodeSeatOf, SharedNode};
use crate::peers::Peers;
use crate::told::Told;
use kp_links::{LinkSeat, Links};
use kp_turn::{NoMemory, StopWord, Turn};
use std::alloc::{AllocError, Global};

// Nothing for any member.
fn no_peers<T>() -> Peers<T>
    ensures { AreBlank result }
{
    Peers {
        one: None,
        two: None,
        three: None,
        four: None,
        five: None,
        six: None,
        seven: None,
    }
}

// Whether this member, counted from 1, is a peer of the node.
fn peers_with(number: u8, members: u8, member: u8) -> bool
    ensures { result ≡ is_peer number members member }
{
    member <= members && member != number
}

// Makes a link, where one is asked for.
fn make_link<M: Drop>(
    alloc: Global,
    there: bool,
    link: &mut Option<Links<M>>,
    seat: &mut Option<LinkSeat<M>>,
) -> Result<(), NoMemory>
    requires { (link.old ≡ None) × (seat.old ≡ None) }
    ensures seat { OnOk result (HasSeat link.new seat.new) }
    ensures there { OnOk result (is_there link.new ≡ there) }
    ensures new { OnOk result (IsNewSeat seat.new) }
{
    if there {
        match Links::new(alloc) {
            Ok((made, first)) => {
                *link = Some(made);
                *seat = Some(first);
            }
            Err(_) => return Err(AllocError),
        }
    }
    Ok(())
}

// Makes a link to each peer.
fn make_links<M: Drop>(
    alloc: Global,
    number: u8,
    members: u8,
    links: &mut Peers<Links<M>>,
    seats: &mut Peers<LinkSeat<M>>,
) -> Result<(), NoMemory>
    requires { AreBlank links.old × AreBlank seats.old }
    ensures seats { OnOk result (HasSeats links.new seats.new) }
    ensures peers { OnOk result (HasPeers number members links.new) }
    ensures new { OnOk result (IsBlank seats.new) }
{
    make_link(
        alloc,
        peers_with(number, members, 1),
        &mut links.one,
        &mut seats.one,
    )?;
    make_link(
        alloc,
        peers_with(number, members, 2),
        &mut links.two,
        &mut seats.two,
    )?;
    make_link(
        alloc,
        peers_with(number, members, 3),
        &mut links.three,
        &mut seats.three,
    )?;
    make_link(
        alloc,
        peers_with(number, members, 4),
        &mut links.four,
        &mut seats.four,
    )?;
    make_link(
        alloc,
        peers_with(number, members, 5),
        &mut links.five,
        &mut seats.five,
    )?;
    make_link(
        alloc,
        peers_with(number, members, 6),
        &mut links.six,
        &mut seats.six,
    )?;
    make_link(
        alloc,
        peers_with(number, members, 7),
        &mut links.seven,
        &mut seats.seven,
    )?;
    Ok(())
}

// A seat of a link, where there is one.
pub(crate) fn split_link<M: Drop>(
    link: &Option<Links<M>>,
    seat: &mut Option<LinkSeat<M>>,
) -> Option<LinkSeat<M>>
    requires { HasSeat link.now seat.old }
    ensures old { HasSeat link.now seat.new }
    ensures new { HasSeat link.now result }
    ensures views { Splits seat.old seat.new result }
{
    let Some(link) = link else {
        return None;
    };
    let Some(seat) = seat else {
        return None;
    };
    Some(link.split(seat))
}

impl<K: Kept> SharedNode<K> {
    /// Shares a node that has taken no event and is alive, with a link to each of its peers. Where memory runs out the node is
    /// dropped.
    pub fn new(alloc: Global, kept: K) -> Result<(SharedNode<K>, NodeSeat<K>), NoMemory>
    where
        K: Drop,
        requires new { (K.life kept).thought ≡ 0 }
        requires alive { IsAlive (K.life kept) }
        ensures seat { IfOk result (λ t. IsNodeSeatOf (λ s. K.life s.kept) t.0 t.1) }
        ensures number { IfOk result (λ t. (t.0.number ≡ K.number kept) × (t.0.members ≡ K.members kept)) }
        ensures new { IfOk result (λ t. IsFirstSeat (λ s. s.kept ≡ kept) t.1) }
    {
        let number = kept.number();
        let members = kept.members();
        let mut links = no_peers();
        let mut seats = no_peers();
        make_links(alloc, number, members, &mut links, &mut seats)?;
        let (turn, turn_seat) = Turn::new(alloc, Served { kept, tasks: 0 })?;
        let (stop, stop_seat) = StopWord::new(alloc)?;
        let node = NodeOf {
            number,
            members,
            turn,
            stop,
            links,
        };
        let seat = NodeSeatOf {
            turn: turn_seat,
            stop: stop_seat,
            links: seats,
            told: Told::new(),
        };
        Ok((node, seat))
    }

    /// A seat for another thread, which has seen as much as this one and did no task. It takes no memory.
    pub fn split(&self, seat: &mut NodeSeat<K>) -> NodeSeat<K>
        requires { IsNodeSeatOf (λ s. K.life s.kept) self.now seat.old }
        ensures old { IsNodeSeatOf (λ s. K.life s.kept) self.now seat.new }
        ensures new { IsNodeSeatOf (λ s. K.life s.kept) self.now result }
        ensures views { HasSplit seat.old seat.new result }
    {
        NodeSeatOf {
            turn: self.turn.split(&mut seat.turn),
            stop: self.stop.split(&mut seat.stop),
            told: Told::new(),
            links: Peers {
                one: split_link(&self.links.one, &mut seat.links.one),
                two: split_link(&self.links.two, &mut seat.links.two),
                three: split_link(&self.links.three, &mut seat.links.three),
                four: split_link(&self.links.four, &mut seat.links.four),
                five: split_link(&self.links.five, &mut seat.links.five),
                six: split_link(&self.links.six, &mut seat.links.six),
                seven: split_link(&self.links.seven, &mut seat.links.seven),
            },
        }
    }

    /// The number of tasks that the node was given up to this moment. It waits for nobody.
    pub fn count(&self, seat: &mut NodeSeat<K>) -> u64
        requires { IsNodeSeatOf (λ s. K.life s.kept) self.now seat.old }
        ensures seat { IsNodeSeatOf (λ s. K.life s.kept) self.now seat.new }
        ensures count { result ≡ length (view seat.new.turn).seen }
        ensures view { SeesMore (view seat.old.turn) (view seat.new.turn) }
        ensures own { own (view seat.new.turn) ≡ own (view seat.old.turn) }
        ensures same { (seat.new.stop ≡ seat.old.stop) × (seat.new.links ≡ seat.old.links) }
    {
        self.turn.count(&mut seat.turn)
    }

    /// Tells all workers to stop. It waits for nobody.
    pub fn stop(&self, seat: &mut NodeSeat<K>)
        requires { IsNodeSeatOf (λ s. K.life s.kept) self.now seat.old }
        ensures seat { IsNodeSeatOf (λ s. K.life s.kept) self.now seat.new }
        ensures view { stop_view seat.new.stop ≡ with_set (stop_view seat.old.stop) }
        ensures same { (seat.new.turn ≡ seat.old.turn) × (seat.new.links ≡ seat.old.links) }
    {
        self.stop.set(&mut seat.stop);
    }
}
