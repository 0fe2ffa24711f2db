//! A node kept in its home.
#![tactic(auto)]

mod batches;
mod events;
mod flushing;
mod kept;
mod opening;
mod refusals;
mod slots;
mod tearing;
mod thinking;

pub use kept::Kept;
pub use tearing::TornStep;
