//! What an event of Raft may need, made before it is taken.

ghost use Rattle.std.specs.Prelude.{◌≡◌, ℕ, true, false, None, IfOk};
ghost use Rattle.std.specs.FinMap as map;
ghost use Rattle.kp_node.specs.Holding.{AreKept, served_at};
ghost use Rattle.kp_node.specs.Reactions.{Turns, heard_if};
ghost use Rattle.kp_node.specs.Ahead.{IsLooked, IsHeardAhead};

use crate::deadlines::all_heard;
use crate::rising::Rising;
use crate::walking::{Before, Turned, change_each, look};
use kp_expiry::Expiry;
use kp_model::{Items, NoMemory};
use kp_seats::Seats;
use kp_step::Seat;
use kp_storage::Storage;
use kp_watch::Watches;
use std::alloc::Global;

/// What an event may need.
#[derive(Drop)]
pub(crate) struct Ahead {
    // what is known of the connections, where the term may rise
    pub(crate) before: Option<Before>,
    // all sessions as heard, where the member may become leader
    pub(crate) heard: Option<Expiry>,
}

/// Makes what is needed where the term may rise, and where the member may become leader.
pub(crate) fn look_ahead(
    alloc: Global,
    seats: &Seats<Seat>,
    storage: &Storage,
    now: u64,
    may_rise: bool,
    may_lead: bool,
) -> Result<Ahead, NoMemory>
    ensures looked { IfOk result (λ a. IsLooked may_rise seats.now.seats a.before) }
    ensures heard { IfOk result (λ a. IsHeardAhead may_lead now storage.now.state.sessions a.heard) }
{
    let heard = hear_ahead(alloc, storage, now, may_lead)?;
    match look_if(alloc, seats, may_rise) {
        Ok(before) => Ok(Ahead { before, heard }),
        Err(none) => {
            drop(heard);
            Err(none)
        }
    }
}

/// Looks at the connections where the term may rise.
pub(crate) fn look_if(
    alloc: Global,
    seats: &Seats<Seat>,
    may_rise: bool,
) -> Result<Option<Before>, NoMemory>
    ensures { IfOk result (λ b. IsLooked may_rise seats.now.seats b) }
{
    if !may_rise {
        return Ok(None);
    }
    Ok(Some(look(alloc, seats)?))
}

// All sessions as heard at this time, where the member may become leader.
fn hear_ahead(
    alloc: Global,
    storage: &Storage,
    now: u64,
    may_lead: bool,
) -> Result<Option<Expiry>, NoMemory>
    ensures { IfOk result (λ h. IsHeardAhead may_lead now storage.now.state.sessions h) }
{
    if !may_lead {
        return Ok(None);
    }
    Ok(Some(all_heard(alloc, &storage.committed(), now)?))
}

/// The connections behind an event by which the term rose, or didn't. It takes no memory but for refusals.
pub(crate) fn rise_if(
    alloc: Global,
    rose: bool,
    seats: &mut Seats<Seat>,
    watches: &mut Watches,
    zxid: u64,
    before: Option<Before>,
) -> Turned
    requires looked { IsLooked rose seats.old.seats before }
    requires kept { AreKept seats.old.seats watches.old }
    requires served { (q : ℕ) → map.get seats.old.sessions q ≡ served_at (map.get seats.old.seats q) }
    ensures { Turns rose zxid seats.old watches.old seats.new watches.new result.ready result.lost }
{
    match before {
        Some(before) if rose => change_each(seats, watches, &Rising { zxid }, before),
        _ => Turned {
            ready: Items::new(alloc),
            lost: 0,
        },
    }
}

/// When each session was heard, behind an event by which the member became leader, or didn't.
pub(crate) fn hear_if(
    led: bool,
    expiry: &mut Expiry,
    now: u64,
    sessions: &Storage,
    heard: Option<Expiry>,
)
    requires { IsHeardAhead led now sessions.now.state.sessions heard }
    ensures { expiry.new ≡ heard_if led now sessions.now.state.sessions expiry.old }
{
    match heard {
        Some(all) => {
            if led {
                *expiry = all;
            } else {
                drop(all);
            }
        }
        None => {}
    }
}
