//! The records of ZooKeeper's client protocol: what a client asks and what a server answers, read and written.
//! Each packet is an int length and a record of exactly that many bytes.
#![tactic(auto)]

mod acl;
mod connect;
mod copy;
mod copy_field;
mod copy_op;
mod copy_request;
mod event;
mod fail;
mod field;
mod fields;
mod kind;
mod list;
mod marked;
mod multi;
mod op_kind;
mod packet;
mod promises;
mod read;
mod reply;
mod request;
mod result;
mod stat;
mod value;
mod write;

pub use acl::{WireAcl, WireAcls};
pub use connect::{
    ConnectReply, ConnectRequest, read_connect, read_connect_reply, write_connect,
    write_connect_request,
};
pub use fail::WireFail;
pub use packet::{Packet, read_packet, write_event, write_reply};
pub use promises::laws;
pub use read::read_request;
pub use reply::WireReply;
pub use request::{Request, WireAsk, WireOp, WireOps, WireTexts};
pub use result::OpResult;
pub use stat::Stat;
pub use write::write_request;
