//! Homes: two journals and two images, of which one of each is live.
#![tactic(auto)]

mod blank;
mod fail;
mod home;
mod inspecting;
mod kept;
mod open;
mod promises;
mod reading;
mod replay;
mod slot;
mod syncing;
mod whole;

pub use fail::HomeFail;
pub use home::Home;
pub use inspecting::{LiveSlot, inspect};
pub use kept::Kept0;
pub use promises::{a_batch_is_replayed, a_slot_is_replayed, what_stands_is_found};
pub use whole::Whole;
