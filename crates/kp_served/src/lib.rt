//! A node with its home, as threads share it.
#![tactic(auto)]

mod home_node;
mod laws;

pub use home_node::HomeNode;
pub use laws::{count_found, flushed_is_found};
