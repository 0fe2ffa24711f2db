//! The error codes of the ZooKeeper protocol that this server answers.

/// A malformed path, flags that are none, or a deletion of the root.
pub const BAD_ARGUMENTS: i32 = -8;

/// There is no such node.
pub const NO_NODE: i32 = -101;

/// The session lacks the right.
pub const NO_AUTH: i32 = -102;

/// The version isn't the one that was asked for.
pub const BAD_VERSION: i32 = -103;

/// An ephemeral node has no children.
pub const NO_CHILDREN_FOR_EPHEMERALS: i32 = -108;

/// The node exists already.
pub const NODE_EXISTS: i32 = -110;

/// The node has children.
pub const NOT_EMPTY: i32 = -111;

/// The session is dead, or it has another password.
pub const SESSION_EXPIRED: i32 = -112;

/// An access list that can't be given: it is empty, or one of its lines names nobody or an unknown right.
pub const INVALID_ACL: i32 = -114;

/// What was shown makes no id: another scheme than `digest`, no colon, or a user that is no text in UTF-8.
pub const AUTH_FAILED: i32 = -115;
