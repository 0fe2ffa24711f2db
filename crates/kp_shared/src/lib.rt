//! A node with its home that threads share.
#![tactic(auto)]

mod kept;
mod node;
mod peer_links;
mod peers;
mod plan;
mod probes;
mod refusal;
mod sending;
mod sharing;
mod task;
mod thinking;
mod told;
mod turns;

pub use kept::{Kept, Life, Served, dies_once, keeps_all};
pub use node::{NodeOf, NodeSeat, NodeSeatOf, SharedNode};
pub use peers::Peers;
pub use plan::Step;
pub use refusal::Refusal;
pub use sending::{post_all, post_thought};
pub use task::{Answer, Task};
pub use thinking::{flush, think};
pub use told::Told;
pub use turns::{Glance, make_turn, think_kept, think_plan};
