use kp_event::Thought;

/// The connection of an event.
#[derive(Clone, Copy, Drop)]
pub enum Mark {
    /// It gave the bytes.
    Fed(u64),

    /// It is drained.
    Drained(u64),

    /// There is none, or what it says is not looked at.
    Other,
}

/// The thought of an event, or None where the node had no memory for it.
#[derive(Drop)]
pub struct Note<M> {
    pub mark: Mark,
    pub thought: Option<Thought<(u8, M)>>,
}
