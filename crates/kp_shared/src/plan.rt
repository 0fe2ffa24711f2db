use kp_event::NodeEventKind;

/// A step of a worker's turn.
#[derive(Drop)]
pub enum Step<M> {
    /// One event of this kind.
    Event(NodeEventKind<M>),

    /// CommitOnes, of which the last alone finds no further entry.
    Commits,

    /// The same, where the worker finds it worth while.
    MaybeCommits,

    /// One Beat, where the worker finds it worth while.
    MaybeBeat,
}
