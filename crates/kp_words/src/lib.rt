//! The four-letter words: questions that an operator asks of a node with four bytes on a new connection, and the
//! texts that answer them.
//!
//! A node gathers [`Facts`] about itself, and [`answer`] prints what the word asks for. Lines end with a line feed; a
//! number is decimal, or hexadecimal with lower-case digits behind `0x`.
#![tactic(auto)]

mod answers;
mod facts;
mod lines;
mod lists;
mod word;

pub use answers::answer;
pub use facts::{ConnFacts, Counts, Facts, LogFacts, SessionPaths, WatchedPath};
pub use word::Word;
