//! A connection hears of what happened.

ghost use Rattle.std.specs.Prelude.{true, false};
ghost use Rattle.kp_node.specs.Hearing.{IsHeard};

use crate::settling::give_up;
use kp_conn::Conn;
use kp_model::Event;
use kp_watch::Watches;

/// The packet of an event goes out to a connection of this number. One that is closing hears nothing, and one for which
/// there is no memory is given up.
pub fn hear(watches: &mut Watches, number: u64, conn: &mut Conn, event: &Event)
    ensures { IsHeard number event.now watches.old conn.old watches.new conn.new }
{
    if conn.phase().is_over() {
        return;
    }
    match conn.event(event) {
        Ok(()) => {}
        Err(_) => give_up(watches, number, conn),
    }
}
