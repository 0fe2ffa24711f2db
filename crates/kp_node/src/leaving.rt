//! What becomes of the connections where an image is taken, and the term may have risen.

ghost use Rattle.std.specs.Prelude.{◌≡◌, ◌||◌, ℕ};
ghost use Rattle.std.specs.FinMap as map;
ghost use Rattle.kp_node.specs.Ahead.{IsLooked};
ghost use Rattle.kp_node.specs.Holding.{AreKept, served_at};
ghost use Rattle.kp_node.specs.Leaving.{IsSeatLeft, Leaves};

use crate::ahead::rise_if;
use crate::rising::{Ending, Rising};
use crate::walking::{Before, Turned, change_each};
use kp_model::Items;
use kp_seats::{Change, Seats};
use kp_step::Seat;
use kp_watch::Watches;
use std::alloc::Global;

// An image was taken: every connection that isn't over ends, behind what a risen term makes of it.
#[derive(Drop)]
struct Leaving {
    // whether the term rose
    rose: bool,
    // the index of the last entry that was applied before, which refusals show
    zxid: u64,
}

impl Change<Seat> for Leaving {
    ghost changes = { λ r. IsSeatLeft r.rose r.zxid };

    fn change(&self, conn: u64, seat: &mut Seat) {
        leave(self.rose, self.zxid, conn, seat);
    }
}

// A connection behind a risen term, where it rose, ends with all others.
fn leave(rose: bool, zxid: u64, conn: u64, seat: &mut Seat)
    ensures { IsSeatLeft rose zxid conn seat.old seat.new }
{
    if rose {
        Rising { zxid }.change(conn, seat);
    }
    Ending {}.change(conn, seat);
}

/// The connections behind a message by which the term rose, or didn't, and an image was taken, or none. It takes no memory
/// but for refusals.
pub(crate) fn leave_if(
    alloc: Global,
    taken: bool,
    rose: bool,
    seats: &mut Seats<Seat>,
    watches: &mut Watches,
    zxid: u64,
    before: Option<Before>,
) -> Turned
    requires looked { IsLooked (taken || rose) seats.old.seats before }
    requires kept { AreKept seats.old.seats watches.old }
    requires served { (q : ℕ) → map.get seats.old.sessions q ≡ served_at (map.get seats.old.seats q) }
    ensures { Leaves rose taken zxid seats.old watches.old seats.new watches.new result.ready result.lost }
{
    if !taken {
        return rise_if(alloc, rose, seats, watches, zxid, before);
    }
    match before {
        Some(before) => change_each(seats, watches, &Leaving { rose, zxid }, before),
        None => Turned {
            ready: Items::new(alloc),
            lost: 0,
        },
    }
}
