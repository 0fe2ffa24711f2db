use kp_model::Bytes;

/// What a connection says of bytes that came on it.
#[derive(Clone, Copy, Drop)]
pub enum FedWord {
    /// They were taken.
    Taken,

    /// The frame that begins at this place of the connection's input is outside the grammar.
    Bad { at: u64 },

    /// There is no such connection, or it is closing.
    Unknown,
}

/// What was ready for a connection.
#[derive(Drop)]
pub struct OutPiece {
    /// The bytes, which may be none.
    pub bytes: Bytes,

    /// No more will come.
    pub over: bool,

    /// The connection was given up for want of memory.
    pub lost: bool,
}

/// What a node says to an event.
#[derive(Drop)]
pub enum Said {
    /// To an Accept: the number of the connection.
    Conn(u64),

    /// To a Client.
    Fed(FedWord),

    /// To a Hangup: whether there was such a connection.
    Hung(bool),

    /// To a Drain: what was ready, or None where there is no such connection.
    Out(Option<OutPiece>),

    /// To a Deliver and to a Timeout.
    Raft,

    /// To a Beat: the number of messages.
    Beat(u32),

    /// To a CommitOne: the index of the applied entry, or None where there was none to apply.
    Done(Option<u64>),

    /// To an ExpireDue: the number of sessions whose end was proposed.
    Expired(u32),

    /// To a Snapshot: the index up to which the log is an image now.
    Snapped(u64),
}
