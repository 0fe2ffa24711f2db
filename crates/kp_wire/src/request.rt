//! What a client asks.

use crate::acl::WireAcls;
use kp_model::{Bytes, Items, Text};

/// A list of texts, each of which may be null.
pub type WireTexts = Items<Option<Text>>;

/// The operations of a multi.
pub type WireOps = Items<WireOp>;

/// What a client asks, and the number by which it knows the answer.
#[derive(Drop)]
pub struct Request {
    /// Echoed by the answer. Clients use -2 for a ping, -4 for an auth and -8 for a setWatches.
    pub xid: i32,
    pub ask: WireAsk,
}

/// What is asked, with the fields as they are sent: null and empty are different values. `flags` and `version`
/// stand for ints in two's complement.
#[derive(Drop)]
pub enum WireAsk {
    /// Type 1: makes a node, and wants its path.
    Create {
        path: Option<Text>,
        bytes: Option<Bytes>,
        acl: Option<WireAcls>,
        flags: u32,
    },
    /// Type 15: makes a node, and wants its path and numbers.
    Create2 {
        path: Option<Text>,
        bytes: Option<Bytes>,
        acl: Option<WireAcls>,
        flags: u32,
    },
    /// Type 2: removes a node.
    Delete {
        path: Option<Text>,
        version: u32,
    },
    /// Type 3: wants a node's numbers.
    Exists {
        path: Option<Text>,
        watch: bool,
    },
    /// Type 4: wants a node's data and numbers.
    GetData {
        path: Option<Text>,
        watch: bool,
    },
    /// Type 5: sets a node's data.
    SetData {
        path: Option<Text>,
        bytes: Option<Bytes>,
        version: u32,
    },
    /// Type 6: wants a node's access list and numbers.
    GetAcl {
        path: Option<Text>,
    },
    /// Type 7: sets a node's access list.
    SetAcl {
        path: Option<Text>,
        acl: Option<WireAcls>,
        version: u32,
    },
    /// Type 8: wants the names of a node's children.
    GetChildren {
        path: Option<Text>,
        watch: bool,
    },
    /// Type 12: wants the names of a node's children and the node's numbers.
    GetChildren2 {
        path: Option<Text>,
        watch: bool,
    },
    /// Type 9: goes through the log, and wants the path.
    Sync {
        path: Option<Text>,
    },
    /// Type 11: tells that the client is there.
    Ping,
    /// Type 13: looks whether a node has a version.
    Check {
        path: Option<Text>,
        version: u32,
    },
    /// Type 14: takes all operations, or none.
    Multi {
        ops: WireOps,
    },
    /// Type 100: adds an id to the session's.
    Auth {
        kind: i32,
        scheme: Option<Text>,
        auth: Option<Bytes>,
    },
    /// Type 101: sets watches anew, and fires those whose node changed after the index.
    SetWatches {
        zxid: i64,
        contents: Option<WireTexts>,
        exist: Option<WireTexts>,
        child: Option<WireTexts>,
    },
    /// Type -11: ends the session.
    CloseSession,
    /// Any other type, with whatever bytes stand behind it.
    Other {
        kind: i32,
        rest: Bytes,
    },
}

/// An operation of a multi, with the fields of the request of that type.
#[derive(Drop)]
pub enum WireOp {
    Create {
        path: Option<Text>,
        bytes: Option<Bytes>,
        acl: Option<WireAcls>,
        flags: u32,
    },
    Create2 {
        path: Option<Text>,
        bytes: Option<Bytes>,
        acl: Option<WireAcls>,
        flags: u32,
    },
    Delete {
        path: Option<Text>,
        version: u32,
    },
    SetData {
        path: Option<Text>,
        bytes: Option<Bytes>,
        version: u32,
    },
    Check {
        path: Option<Text>,
        version: u32,
    },
}
