//! The one way in which a writer refuses a call.

/// Memory ran out, or the value has no spelling, since its length doesn't fit the length field: std's own error of
/// an allocation, so that whoever has a `From` of that has one of this.
pub type NoMemory = std::alloc::AllocError;
