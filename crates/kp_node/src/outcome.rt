//! What an event gives.

use kp_entry::Records;
use kp_event::{Said, Standing};
use kp_model::Items;
use kp_raft::Mails;
use kp_snapshot::Image;

/// What an event gives beside the change of the node.
#[derive(Drop)]
pub struct Outcome {
    /// What the node says. It may leave once the records are kept.
    pub said: Said,

    /// What is to be kept before anything leaves.
    pub records: Records,

    /// The image that stands for the last record, where that is a base.
    pub image: Option<Image>,

    /// The messages to other nodes, each with its receiver.
    pub mail: Mails<Image>,

    /// The number of entries that were taken of an append that had more, where memory ran out.
    pub cut: Option<u32>,

    /// The number of connections that were given up for want of memory.
    pub lost: u32,

    /// Where the node stands now.
    pub standing: Standing,

    /// The connections, ascending, for which something is ready now and nothing was before.
    pub ready: Items<u64>,
}
