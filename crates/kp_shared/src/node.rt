// A node that threads share: a turn, a stop word and a link to each peer.
ghost use Rattle.kp_shared.specs.Members.{HasPeers};

use crate::kept::{Kept, Served};
use crate::peers::Peers;
use crate::told::Told;
use kp_links::{LinkSeat, Links};
use kp_turn::{StopSeat, StopWord, Turn, TurnSeat};

/// A turn, a stop word and a link exactly to each peer. `SharedNode` is this type at the types of a node.
#[derive(Drop)]
pub struct NodeOf<T, L> {
    /// The number of the node.
    pub number: u8,

    /// How many members its cluster has.
    pub members: u8,

    pub turn: T,
    pub stop: StopWord,
    pub links: Peers<L>,
    ghost peered: { HasPeers number members links },
}

/// A seat of a turn, of a stop word and of links. `NodeSeat` is this type at the types of a node.
#[derive(Drop)]
pub struct NodeSeatOf<T, L> {
    pub turn: T,
    pub stop: StopSeat,
    pub links: Peers<L>,

    /// When this thread makes a Beat of its own.
    pub told: Told,
}

/// A node that threads share.
pub type SharedNode<K> = NodeOf<Turn<Served<K>>, Links<<K as Kept>::Mail>>;

/// What a thread calls a shared node with.
pub type NodeSeat<K> = NodeSeatOf<TurnSeat<Served<K>>, LinkSeat<<K as Kept>::Mail>>;
