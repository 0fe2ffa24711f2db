use kp_model::Bytes;

/// What the stream of a connection answers.
#[derive(Drop)]
pub enum Heard {
    /// These bytes came, at least one and at most 65,536.
    Bytes(Bytes),

    /// Nothing has come yet.
    Later,

    /// Nothing more will come.
    End,

    /// The stream or the sink failed, or there was no memory for what came.
    Fault,
}

/// Whether a node has a connection.
#[derive(Clone, Copy, Drop)]
pub enum LineState {
    /// It has none of this number.
    Gone,

    /// It has it.
    Open,

    /// It has it, and nothing more is taken of it: its stream answers End.
    Over,
}

/// What is ready after a wait.
#[derive(Drop)]
pub struct Woken {
    /// Connections of which something may have come.
    pub ready: Vec<u64>,

    /// Connections that have taken all that was kept for them.
    pub free: Vec<u64>,

    /// A draw for each connection that is new.
    pub draws: Vec<[u8; 16]>,
}
