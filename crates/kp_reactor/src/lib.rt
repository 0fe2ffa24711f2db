//! Sockets that never wait, under one poll: which of them are told of, what comes of each, and what goes out to each.
#![tactic(auto)]

mod line;
mod reactor;
mod reading;
mod socket;
mod tokens;
mod writing;

pub use line::{Line, LineEnd};
pub use reactor::{AcceptFail, Arrival, Door, Reactor, ReactorFail, WaitFail};
pub use reading::read_now;
pub use socket::{SocketIn, SocketOut, halves};
pub use tokens::Tokens;
pub use writing::write_now;
