//! One connection of a client, without the node: it takes bytes in any pieces and reads requests in them, keeps the
//! requests that wait for their answers in their order, and holds the packets that go out.
#![tactic(auto)]

mod beginning;
mod conn;
mod fed;
mod feeding;
mod first;
mod frames;
mod kept;
pub mod laws;
mod packets;
mod phase;
mod queue;
mod waiting;

pub use beginning::Beginning;
pub use conn::Conn;
pub use fed::{Fed, FedEnd, OutPiece};
pub use packets::{write_connect_packet, write_event_packet};
pub use phase::Phase;
pub use waiting::{Mark, Waiting};
