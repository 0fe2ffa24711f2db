//! Looks at a storage: the texts of its nodes, their children, their access lists and its sessions. A look changes
//! nothing.
#![tactic(auto)]

mod looking;
mod print;

pub use looking::{acl, children, peek, see, who};
pub use print::text_of;
