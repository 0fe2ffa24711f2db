//! What the end of a session and a multi do: several effects, each found on the nodes behind those before it.
#![tactic(auto)]

mod behind;
mod closing;
mod draft;
mod operations;

pub use closing::close;
pub use operations::multi;
