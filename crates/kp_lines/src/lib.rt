//! The connections of a node in a table, under the numbers that the node gave them.
#![tactic(auto)]

mod lines;
mod past;
mod port;
mod slots;
mod table;

pub use lines::{Tended, Wakes};
pub use past::Past;
pub use port::Port;
pub use table::Table;
