//! The nodes of a cluster together, as a definition, and the laws of all that they do: one tree, and no answer that
//! crosses a take-over of its session.
#![tactic(auto)]

mod epochs;
mod laws;
mod serving;

pub use epochs::epochs_rise_by_attaching;
pub use laws::{one_tree, worlds_of_three};
pub use serving::{
    answers_are_of_their_epoch, closes_end_their_connections, live_connections_are_current,
    no_answer_crosses_an_attach,
};
