//! A walk over all connections.
ghost use Rattle.std.specs.Prelude.{◌≡◌, ℕ, ◌<◌, true, IsSome};
ghost use Rattle.std.specs.FinMap as map;
ghost use Rattle.kp_seats.specs.Seating.{Seating};
ghost use Rattle.kp_seats.specs.Walked.{IsWalk, IsStep};

use crate::seats::Seats;

/// A change of what a connection holds.
pub trait Change<S> {
    /// Whether it may make the second value of the first, at the connection of this number.
    ghost changes: { Self → ℕ → S → S → Type 0 };

    fn change(&self, conn: u64, seat: &mut S)
        ensures { changes self.now conn seat.old seat.new };
}

// Changes what the connection holds, if it is there.
fn change_at<S, C: Change<S>>(seats: &mut Seats<S>, change: &C, conn: u64)
    ensures { IsStep (C.changes change.now) conn seats.old seats.new }
{
    if let Some(seat) = seats.get_mut(conn) {
        change.change(conn, seat);
    }
}

/// Changes what each connection holds, in the order of their numbers. It takes no memory.
pub fn change_all<S, C: Change<S>>(seats: &mut Seats<S>, change: &C)
    ensures { IsWalk (C.changes change.now) seats.old seats.new }
{
    let mut conn = 0;
    while let Some(next) = seats.next_after(conn) {
        change_at(seats, change, next);
        conn = next;
    }
}
