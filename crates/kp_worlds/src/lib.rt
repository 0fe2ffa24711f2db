//! Why a script of a cluster is a run of its members: whatever lines are played, the stage that they leave stands for a
//! world that events of its members lead to.
#![tactic(auto)]

mod laws;

pub use laws::{
    forwards_are_of_clients, messages_ascend, scripts_are_one_tree, scripts_are_worlds,
};
