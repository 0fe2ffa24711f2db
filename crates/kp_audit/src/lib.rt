//! The audit of a home: the numbers of its live slot, and how many nodes and sessions its image and its entries leave.
#![tactic(auto)]

mod auditing;
mod fail;
mod printing;
mod replaying;

pub use auditing::audit;
pub use fail::AuditFail;
