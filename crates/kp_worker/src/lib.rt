//! One worker that serves all connections of a node, its listener and the links to it, in one thread.
#![tactic(auto)]

mod ends;
mod gathering;
mod heard;
mod inbox;
mod laws;
mod lines;
mod note;
mod noting;
mod pace;
mod planning;
mod releasing;
mod thinking;
mod turning;
mod working;

pub use ends::NodeEnd;
pub use heard::{Heard, LineState, Woken};
pub use inbox::{Arrived, Inbox};
pub use laws::each_by_itself;
pub use lines::Lines;
pub use pace::{Due, Pace};
pub use working::serve_node;
