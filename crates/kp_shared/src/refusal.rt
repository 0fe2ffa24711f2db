use kp_event::KeptFail;

/// Why a worker's turn was cut short.
#[derive(Clone, Copy, Drop)]
pub enum Refusal {
    /// A task was refused so. `NoMemory` comes besides where the worker itself found no memory.
    Failed(KeptFail),

    /// The history of the node is full.
    Worn,
}
