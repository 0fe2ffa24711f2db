//! The workers of a node: one for each connection, its ticker, and who carries messages to it.
//!
//! Each makes turns of the shared node: it thinks events one behind the other, keeps them by one flush, and only then lets
//! out what they say and send.
#![tactic(auto)]

mod accepting;
mod ends;
mod output;
mod plans;
mod rounds;
mod serving;
mod ticking;

pub use accepting::accept;
pub use ends::{ConnEnd, Turned};
pub use serving::serve_connection;
pub use ticking::{carry, tick};
