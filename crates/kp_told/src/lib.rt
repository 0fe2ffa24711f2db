//! What the members of a cluster print: where a node stands, what it says, what it sends, and what is seen of its tree.
#![tactic(auto)]

mod letters;
mod look;
mod said;
mod state;

pub use letters::{message_line, print_letters};
pub use look::look_text;
pub use said::said_text;
pub use state::{state_text, up_text};
