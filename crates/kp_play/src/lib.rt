//! How a script is played, as a definition: a cluster on a stage, what each line prints of it and what it leaves.
#![tactic(auto)]

mod plays;

pub use plays::scripts_of_three;
