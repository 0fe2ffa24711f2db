//! The limits of the formats' fields.

/// The least timeout of a session, in milliseconds.
pub(crate) const LEAST_TIMEOUT: u32 = 10_000;

/// The greatest timeout of a session, in milliseconds.
pub(crate) const GREATEST_TIMEOUT: u32 = 100_000;

/// The greatest number of a server that a vote may be for.
pub(crate) const LAST_VOTE: u8 = 7;
