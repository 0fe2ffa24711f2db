//! What a node does at each event, as a definition, and the laws of its runs.
#![tactic(auto)]

mod laws;
mod seat;

pub use laws::{
    answers_show_one_state, connections_rest, refusals_have_causes, reply_order,
    states_are_replays, steps_say, unknown_requests,
};
pub use seat::Seat;
