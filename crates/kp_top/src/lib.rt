//! The top calls of Keeper: what a command line does, from the bytes that are read to the bytes that are written.
#![tactic(auto)]

mod audit;
mod command;
mod input_lines;
mod line_commands;
mod load;
mod print;
mod status;
mod store;
mod stream;
mod taken;
mod tally;
mod work;

pub use command::run_command;
pub use status::Status;
