use kp_model::Bytes;

/// What happens to a node.
#[derive(Drop)]
pub enum NodeEventKind<M> {
    /// A connection is accepted. From the draw comes the password of a session that it may open.
    Accept { draw: [u8; 16] },

    /// Bytes came on a connection.
    Client { conn: u64, bytes: Bytes },

    /// A connection has no input any more.
    Hangup { conn: u64 },

    /// A connection can take what is ready for it.
    Drain { conn: u64 },

    /// A message of another node came.
    Deliver(M),

    /// No leader was heard for too long.
    Timeout,

    /// A leader sends its followers what they lack.
    Beat,

    /// One committed entry is applied, where there is one.
    CommitOne,

    /// Sessions that were not heard in time are to end.
    ExpireDue,

    /// The log up to the last applied entry is to be replaced by an image.
    Snapshot,
}

/// An event with its time.
#[derive(Drop)]
pub struct NodeEvent<M> {
    /// The time in milliseconds, at most 2^62.
    pub now: u64,

    /// What happens.
    pub kind: NodeEventKind<M>,
}
