//! What the bytes of a connection make of it, beside its requests: a word is answered, and what is no frame ends it.

ghost use Rattle.std.specs.Prelude.{◌≡◌, false, OnOk, OnErr};
ghost use Rattle.kp_conn.specs.Connection.{closed, put};
ghost use Rattle.kp_step.specs.Handing.{ended_by};

use kp_conn::{Conn, FedEnd};
use kp_model::NoMemory;

/// Ends a connection whose bytes are no frame, behind what was answered.
pub fn end_by(conn: &mut Conn, end: FedEnd)
    ensures { conn.new ≡ ended_by end conn.old }
{
    if matches!(end, FedEnd::Bad { .. }) && !conn.phase().is_over() {
        conn.close(false);
    }
}

/// Answers a word, and ends the connection. Without memory nothing has changed.
pub fn say(conn: &mut Conn, text: &[u8]) -> Result<(), NoMemory>
    ensures ok { OnOk result (conn.new ≡ closed false (put text.now conn.old)) }
    ensures err { OnErr result (conn.new ≡ conn.old) }
{
    conn.put(text)?;
    conn.close(false);
    Ok(())
}
