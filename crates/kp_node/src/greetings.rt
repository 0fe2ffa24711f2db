//! The connection that waits for the reply to its connect request is greeted.

ghost use Rattle.std.specs.Prelude.{◌≡◌, ◌<◌, [], None, Some, IfOk, OnErr};
ghost use Rattle.kp_conn.specs.Connection.{opened};
ghost use Rattle.kp_conn.specs.Fed.{fed as reads};
ghost use Rattle.kp_seats.specs.Walked.{IsStep};
ghost use Rattle.kp_node.specs.Greeting.{reply_with as reply_of, Greets, SeatGreets, GreetingIsDefined};

use crate::connect::refusal;
use crate::welcoming::Welcome;
use kp_conn::{Conn, Fed, Phase};
use kp_model::NoMemory;
use kp_seats::Seats;
use kp_step::Seat;
use kp_wire::ConnectReply;

/// A connection that was greeted, and whose kept bytes are served, is the one that the definition greets.
pub fn greeting_is_defined()
    ensures { GreetingIsDefined }
{}

// The reply to a connect request that got this session.
fn reply_with(with_read_only: bool, welcome: &Welcome) -> ConnectReply
    ensures { result ≡ reply_of with_read_only welcome.now }
{
    ConnectReply {
        timeout: welcome.timeout,
        session: welcome.id,
        passwd: welcome.passwd,
        with_read_only,
    }
}

// A connection that waits serves the session from now on, and what it kept is read.
fn welcome_conn(conn: &mut Conn, with_read_only: bool, welcome: &Welcome) -> Result<Fed, NoMemory>
    ensures ok { IfOk result (λ f. reads (opened (reply_of with_read_only welcome.now) welcome.now.epoch conn.old) [] ≡ (conn.new, f)) }
    ensures err { OnErr result (conn.new ≡ conn.old) }
{
    if welcome.id == 0 {
        return Err(NoMemory);
    }
    conn.welcome(&reply_with(with_read_only, welcome), welcome.epoch)
}

// A connection that waits is refused, or serves the session; any other stays. Without memory nothing has changed.
fn greet_conn(conn: &mut Conn, welcome: &Option<Welcome>) -> Result<Option<Fed>, NoMemory>
    ensures ok { IfOk result (λ f. Greets conn.old.phase welcome.now f conn.old conn.new) }
    ensures err { OnErr result (conn.new ≡ conn.old) }
{
    match conn.phase() {
        Phase::Connecting { read_only } => match welcome {
            None => {
                conn.connect(&refusal(read_only), 0)?;
                Ok(None)
            }
            Some(found) => Ok(Some(welcome_conn(conn, read_only, found)?)),
        },
        Phase::Fresh => Ok(None),
        Phase::Live { .. } => Ok(None),
        Phase::Closing { .. } => Ok(None),
    }
}

// The same for a seat.
fn greet_seat(
    seat: &mut Seat,
    conn: u64,
    welcome: &Option<Welcome>,
) -> Result<Option<Fed>, NoMemory>
    ensures ok { IfOk result (λ f. SeatGreets welcome.now f conn seat.old seat.new) }
    ensures err { OnErr result (seat.new ≡ seat.old) }
{
    greet_conn(&mut seat.connection, welcome)
}

/// The connection of this number, if it waits for the reply to its connect request, is refused, or serves the session from
/// now on; what was read of the bytes that it kept is answered. Without memory nothing has changed.
pub(crate) fn greet_at(
    seats: &mut Seats<Seat>,
    conn: u64,
    welcome: &Option<Welcome>,
) -> Result<Option<Fed>, NoMemory>
    ensures ok { IfOk result (λ f. IsStep (SeatGreets welcome.now f) conn seats.old seats.new) }
    ensures err { OnErr result (seats.new ≡ seats.old) }
{
    match seats.get_mut(conn) {
        None => Ok(None),
        Some(seat) => greet_seat(seat, conn, welcome),
    }
}
