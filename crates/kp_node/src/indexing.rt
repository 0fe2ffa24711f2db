//! The index of sessions, behind a step in which few connections changed.

ghost use Rattle.std.specs.Prelude.{◌≡◌, ℕ};
ghost use Rattle.std.specs.FinMap as map;
ghost use Rattle.kp_node.specs.Holding.{served_at};
ghost use Rattle.kp_node.specs.Indexing.{is_live as has_live, IsServedBut, tidied, SameBesideIndex};
ghost use Rattle.kp_node.specs.Meaning.{IsIndexed};

use kp_seats::Seats;
use kp_step::Seat;

// Whether there is a live connection of this number.
fn is_live(seats: &Seats<Seat>, conn: u64) -> bool
    ensures { result ≡ has_live (map.get seats.now.seats conn) }
{
    match seats.get(conn) {
        None => false,
        Some(seat) => seat.connection.live().is_some(),
    }
}

// A connection that isn't live leaves the index.
fn tidy_one(seats: &mut Seats<Seat>, conn: u64)
    ensures { seats.new ≡ tidied (has_live (map.get seats.old.seats conn)) seats.old conn }
{
    if !is_live(seats, conn) {
        let _ = seats.leave(conn);
    }
}

/// Those of the connections that aren't live leave the index of sessions, which is then that of the live connections. It
/// costs these connections, and takes no memory.
pub(crate) fn tidy(seats: &mut Seats<Seat>, conns: &[u64])
    requires indexed { IsIndexed seats.old }
    requires others { IsServedBut conns.now seats.old }
    ensures served { (q : ℕ) → map.get seats.new.sessions q ≡ served_at (map.get seats.new.seats q) }
    ensures beside { SameBesideIndex seats.old seats.new }
{
    for conn in conns {
        tidy_one(seats, *conn);
    }
}
