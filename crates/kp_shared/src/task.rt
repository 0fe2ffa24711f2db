use kp_event::{NodeEvent, Thought};

/// What a running node is asked to do.
#[derive(Drop)]
pub enum Task<M> {
    /// To take an event in memory. Nothing of it leaves before a Flush.
    Think(NodeEvent<M>),

    /// To keep the records of all events that were thought.
    Flush,
}

/// What a running node answers to a task that it was not refused.
#[derive(Drop)]
pub enum Answer<M> {
    /// To a Think.
    Thought(Thought<(u8, M)>),

    /// To a Flush: the number of the last event that was thought.
    Kept(u64),
}
