//! What a node is told, what it answers, and how it is refused: the types that a node and the workers over it share.
//!
//! All of them are plain data. The messages between nodes are a type parameter `M`.
#![tactic(auto)]

mod event;
mod fail;
mod said;
mod thought;

pub use event::{NodeEvent, NodeEventKind};
pub use fail::{KeptFail, Why};
pub use said::{FedWord, OutPiece, Said};
pub use thought::{Standing, Thought};
