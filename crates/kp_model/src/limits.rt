//! Limits of numbers and lengths, which `specs/Limits.antt` names too.

/// 2^62: the greatest index, term, time, session, epoch and running number.
pub const LAST_NUMBER: u64 = 4_611_686_018_427_387_904;

/// 2^31 - 1: the greatest version, count of children and `int` of the protocol. A count of 31 bits goes from it to 0.
pub const LAST_COUNT: u32 = 2_147_483_647;

/// 2^32 - 1: the greatest length that a field of 32 bits holds.
pub const LONGEST_FIELD: usize = 4_294_967_295;

/// 2^20 - 1: the length of the longest frame of the protocol, in bytes.
pub const LONGEST_FRAME: u32 = 1_048_575;

/// 2^32 - 1, the `int` -1 of the protocol: the version that an operation asks for where any version will do.
pub const ANY_VERSION: u32 = 4_294_967_295;
