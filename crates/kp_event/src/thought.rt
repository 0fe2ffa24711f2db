use crate::said::Said;
use kp_model::Items;

/// Where a node stands after an event.
#[derive(Clone, Copy, Drop)]
pub struct Standing {
    /// Whether it leads.
    pub leader: bool,

    /// The index of the last entry of its log.
    pub last: u64,

    /// The index up to which entries are committed.
    pub commit: u64,
}

/// An event that a node has taken, and whose records it has yet to keep.
#[derive(Drop)]
pub struct Thought<M> {
    /// What the node says. It may leave once the records are kept.
    pub said: Said,

    /// The messages to other nodes, which may leave then too.
    pub mail: Items<M>,

    /// The number of entries that were taken of an Append that had more, where memory ran out.
    pub cut: Option<u32>,

    /// The number of connections that were given up for want of memory.
    pub lost: u32,

    /// Where the node stands now.
    pub standing: Standing,

    /// The connections, ascending, for which something is ready now and nothing was before.
    pub ready: Items<u64>,

    /// The number of events that the node has taken.
    pub number: u64,
}
