//! All that waits at a connection is refused.

ghost use Rattle.std.specs.Prelude.{◌≡◌};
ghost use Rattle.kp_node.specs.Refusing.{IsRefused};

use kp_conn::Conn;
use kp_wire::WireReply;

/// Answers each request that waits by this reply, which is the code of a refusal, and ends the connection. Where there is
/// no memory for an answer, the connection is given up.
pub fn refuse(conn: &mut Conn, zxid: u64, refusal: &WireReply)
    ensures { IsRefused zxid refusal.now conn.old conn.new }
{
    for turn in 0..conn.waiting() {
        match conn.answer(zxid, refusal) {
            Ok(()) => {}
            Err(_) => {
                conn.close(true);
                return;
            }
        }
    }
    conn.close(false);
}
