//! What a node holds of each connection.

use kp_conn::Conn;

/// A connection, and the password that a session gets which it opens.
#[derive(Drop)]
pub struct Seat {
    /// The draw of the event that accepted the connection.
    pub draw: [u8; 16],
    pub connection: Conn,
}
