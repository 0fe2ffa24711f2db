//! The connection whose write was applied is answered.

ghost use Rattle.std.specs.Prelude.{◌≡◌, None};
ghost use Rattle.std.specs.FinMap as map;
ghost use Rattle.kp_seats.specs.Walked.{IsStep};
ghost use Rattle.kp_node.specs.Ending.{SeatSettles, SettledIsAll};

use crate::settling::settle;
use kp_model::View;
use kp_seats::Seats;
use kp_step::Seat;
use kp_watch::Watches;
use std::alloc::Global;

/// Where every connection but one rests, all are settled by some choices once this one was by its luck.
pub fn settled_is_all()
    ensures { SettledIsAll }
{}

// What waits at a seat is answered, unless it was given up.
fn settle_seat<V: View>(
    alloc: Global,
    view: &V,
    zxid: u64,
    watches: &mut Watches,
    number: u64,
    seat: &mut Seat,
)
    requires { zxid ≡ (V.state view.now).applied }
    ensures { SeatSettles (V.state view.now) watches.old watches.new number seat.old seat.new }
{
    if !seat.connection.phase().is_lost() {
        settle(alloc, view, zxid, watches, number, &mut seat.connection);
    }
}

/// Answers what waits at the connection of this number on the state of the view, whose applied index is `zxid`, if it is
/// there and was not given up: from the front, until the front is a write whose entry isn't applied.
pub(crate) fn settle_at<V: View>(
    alloc: Global,
    view: &V,
    zxid: u64,
    watches: &mut Watches,
    number: u64,
    seats: &mut Seats<Seat>,
)
    requires { zxid ≡ (V.state view.now).applied }
    ensures settled { IsStep (SeatSettles (V.state view.now) watches.old watches.new) number seats.old seats.new }
    ensures none { map.get seats.old.seats number ≡ None → watches.new ≡ watches.old }
{
    if let Some(seat) = seats.get_mut(number) {
        settle_seat(alloc, view, zxid, watches, number, seat);
    }
}
