//! Tests of the workers of a node, over a small node.
#![tactic(auto)]

mod board;
mod echo;
mod message;
mod pair;
mod parrot;
#[cfg(test)]
mod tests;
#[cfg(test)]
mod whole;

pub use board::{
    Always, Board, Handed, Happening, Happenings, OneMessage, Pieces, Visitor, board_of, was_handed,
};
pub use echo::{Echo, Holds};
pub use message::Message;
pub use pair::serve_two;
pub use parrot::Parrot;
