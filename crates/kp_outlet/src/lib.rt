//! What goes out to a reader that may be slow: a sink that takes what it can at once, and the rest, which is kept up to a bound.
#![tactic(auto)]

mod outlet;
mod ready_sink;

pub use outlet::{Outlet, OutletEnd};
pub use ready_sink::ReadySink;
