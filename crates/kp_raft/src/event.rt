//! What a step takes and what it gives.

use crate::mail::{Mail, Mails};
use kp_entry::Records;
use kp_model::{Body, Items};

/// What happens to a member.
#[derive(Drop)]
pub enum RaftEvent<I> {
    /// It heard of no leader for too long.
    Timeout,
    /// It is time to send. The images are of the tree at this index, one for each peer that lags.
    Beat { index: u64, images: Items<I> },
    /// A message other than an append.
    Deliver(Mail<I>),
    /// Bodies for a leader to append at this time, in milliseconds.
    Propose { time: u64, bodies: Items<Body> },
    /// The own image of the tree at this index becomes the base.
    Compact { index: u64 },
}

/// What a step gives.
#[derive(Drop)]
pub struct RaftOut<I> {
    /// How many entries it appended.
    pub added: u32,
    /// The last index that a truncation in it left, None where there was none.
    pub truncated: Option<u64>,
    /// The image that it took, None where it took none.
    pub image: Option<I>,
    /// What is to be kept before anything is sent.
    pub records: Records,
    /// What is to be sent then.
    pub mail: Mails<I>,
}
