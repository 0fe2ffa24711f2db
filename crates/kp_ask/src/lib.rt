//! What a client's request asks of the store, and how the store's answer is sent. Null counts as empty.
#![tactic(auto)]

mod answer;
mod asked;
mod given;
mod parts;

pub use answer::{answer_to, told_to};
pub use asked::{command, question, wants_watch};
pub use given::{given_index, given_paths};
