//! The storage of a coordination server: the committed tree, the log entries that aren't applied yet
//! with a layer of changes for each of them, and what each of them is answered.
#![tactic(auto)]

mod image;
mod storage;

pub use storage::Storage;
