//! The script language of a cluster: its lines are read from bytes, and the messages between nodes are printed.
#![tactic(auto)]

mod event;
mod line;
mod message;

pub use event::EventLine;
pub use line::{LookLine, ScriptLine, read_script_line};
pub use message::{MessageLine, print_message};
