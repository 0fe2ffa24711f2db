//! The connections of a node over sockets, as the worker of the node sees them.
#![tactic(auto)]

mod piece;
mod port;
mod sockets;
mod waking;

pub use piece::take_piece;
pub use port::{Nothing, SocketPort};
pub use sockets::Sockets;
pub use waking::Waking;
