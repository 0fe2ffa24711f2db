//! What one command or one opening of a session does, found on what a look at the nodes tells.
#![tactic(auto)]

mod acting;
mod checks;
mod creation;
mod look;
mod plan;
mod session;

pub use acting::{act, act_on, parent_of, rise};
pub use look::{Look, OfView};
pub use plan::{Act, Effect, Effects, Found, Plan, Prepared, Stamp};
pub use session::{answer, attach, open, show};
