//! What the definitions of a connection promise.

ghost use Rattle.kp_conn.specs.Fed.{PiecesJoin};

/// A stream may be cut anywhere: two pieces of a live connection, one behind the other, are read as both as one, where
/// no bad frame is met in the first.
pub fn pieces_join()
    ensures { PiecesJoin }
{}
