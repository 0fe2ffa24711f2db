//! One member of a Raft cluster: its variables, and the rules as one step.
#![tactic(auto)]

mod append;
mod beat;
mod change;
mod elect;
mod event;
mod install;
mod lead;
mod mail;
mod raft;
mod rules;
mod spare;
mod step;
mod take;
mod vars;
mod weigh;

pub use append::{AppendMail, Weigh, Weighed};
pub use event::{RaftEvent, RaftOut};
pub use mail::{Mail, Mails};
pub use raft::Raft;
