//! Jute, the record format of ZooKeeper's protocol: its primitives, read and written.
#![tactic(auto)]

mod fault;
mod memory;
mod promises;
mod reader;
mod writer;

pub use fault::JuteFail;
pub use memory::NoMemory;
pub use promises::laws;
pub use reader::{Reader, text_from};
pub use writer::Writer;
