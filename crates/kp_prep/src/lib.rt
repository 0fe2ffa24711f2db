//! What an entry does, found on a view of the tree: its answer, its events and its changes.
#![tactic(auto)]

mod deciding;
mod entry;
mod ledger;
mod preparing;
mod stage;

pub use deciding::{Decided, decide};
pub use kp_act::Prepared;
pub use preparing::prepare;
