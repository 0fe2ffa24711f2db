//! Connections hear of the events that were fired.

ghost use Rattle.std.specs.Prelude.{◌≡◌, ℕ, List, Some, slice_get};
ghost use Rattle.kp_model.specs.declared.reply.Event.{Event};
ghost use Rattle.kp_seats.specs.Walked.{IsStep, SameBeside};
ghost use Rattle.kp_watch.specs.Watching.{shown, somes};
ghost use Rattle.kp_step.specs.declared.seat.Seat.{Seat};
ghost use Rattle.kp_node.specs.Firing.{Hears, SeatHears, AreTold};

use kp_conn::Conn;
use kp_model::Event;
use kp_seats::Seats;
use kp_step::Seat;
use kp_watch::Fired;

// The packet of an event goes out to a connection. One that is closing hears nothing, and one for which there is no
// memory is given up.
fn tell_conn(conn: &mut Conn, event: &Event)
    ensures { Hears event.now conn.old conn.new }
{
    if conn.phase().is_over() {
        return;
    }
    if conn.event(event).is_err() {
        conn.close(true);
    }
}

// The same for a seat.
fn tell_seat(seat: &mut Seat, conn: u64, event: &Event)
    ensures { SeatHears event.now conn seat.old seat.new }
{
    tell_conn(&mut seat.connection, event);
}

// The same for the connection of this number, if it is there.
fn tell_one(seats: &mut Seats<Seat>, conn: u64, event: &Event)
    ensures { IsStep (SeatHears event.now) conn seats.old seats.new }
{
    if let Some(seat) = seats.get_mut(conn) {
        tell_seat(seat, conn, event);
    }
}

// One of those that were fired hears.
fn tell_fired(seats: &mut Seats<Seat>, events: &[Event], fired: Fired)
    ensures told { (e : Event) → slice_get events.now fired.at ≡ Some e → IsStep (SeatHears e) fired.conn seats.old seats.new }
    ensures beside { SameBeside seats.old seats.new }
{
    match events.get(fired.at) {
        None => {}
        Some(event) => tell_one(seats, fired.conn, event),
    }
}

/// The connections hear of the events as they were fired. One that is closing hears nothing, and one for which there is
/// no memory is given up; its watches stay.
pub(crate) fn tell(seats: &mut Seats<Seat>, events: &[Event], fired: &[Fired])
    ensures told { (pairs : List (ℕ × Event)) → shown events.now fired.now ≡ somes pairs → AreTold pairs seats.old.seats seats.new.seats }
    ensures beside { SameBeside seats.old seats.new }
{
    for one in fired {
        tell_fired(seats, events, *one);
    }
}
