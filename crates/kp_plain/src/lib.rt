//! The plain store: the committed state and the entries that aren't applied yet, which it replays at
//! each question. It is slow and short, and says what any store must answer.
#![tactic(auto)]

mod nodes;
mod pick;
mod pour;
mod sessions;
mod shown;
mod sorted;
mod store;
mod tree;

pub use store::{Counts, PlainStore};
