//! Watches: which connection hears of what is done at which path.
#![tactic(auto)]

mod again;
mod firing;
mod gone;
mod index;
mod kind;
mod owners;
mod sides;
mod spots;
mod watch;
mod watches;

pub use kind::Kind;
pub use watch::{Fired, Watch};
pub use watches::Watches;
