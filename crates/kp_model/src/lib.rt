//! The values of a coordination server, and what they mean: nodes, sessions, log entries, commands
//! and replies. `specs/` has the definitions that the contracts of every other crate cite.
#![tactic(auto)]

mod command;
mod entry;
pub mod errors;
mod fits;
mod items;
pub mod laws;
pub mod limits;
mod memory;
mod node;
mod read;
mod reply;
mod session;
mod taking;
mod text;
mod view;

pub use command::{Cmd, Op, Ops};
pub use entry::{Body, Entry};
pub use items::Items;
pub use memory::{Duplicate, NoMemory};
pub use node::{Acl, Acls, Meta, Node, Seen};
pub use read::{ReadCmd, ReadReply, Role};
pub use reply::{Committed, Event, Events, OpReply, Reply};
pub use session::{Origin, Session};
pub use taking::would_take;
pub use text::{Bytes, Paths, Text};
pub use view::{Fill, View};
