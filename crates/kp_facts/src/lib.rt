//! What a node knows of itself, of which the four-letter words tell.
//!
//! Each list is made for the words alone that print it. It costs what it lists, times a logarithm where it is sorted, and
//! not what else the node has.
#![tactic(auto)]

mod groups;
mod laws;
mod seated;
mod tree;
mod watching;

pub use laws::asked_tell;
pub use seated::conns;
pub use tree::{owners, size};
pub use watching::{watch_counts, watched, watchers};
