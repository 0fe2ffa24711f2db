//! The connection that waits for an entry is greeted, and stands aside while the others are told of the entry.

ghost use Rattle.std.specs.Prelude.{◌≡◌, true, false, None, IfOk, IsSome, OnErr};
ghost use Rattle.std.specs.FinMap as map;
ghost use Rattle.kp_conn.specs.Connection.{is_lost};
ghost use Rattle.kp_node.specs.Guests.{swapped, conn_in, IsAside, IsLetIn, ServesSome, joined_if, IsSeated};
ghost use Rattle.kp_node.specs.Holding.{served_by};
ghost use Rattle.kp_node.specs.Welcoming.{heard_of};

use crate::forgetting::{hear_welcome, heard_so_far, unhear_welcome};
use crate::greetings::greet_at;
use crate::joining::Ground;
use crate::serving::{Handed, none_handed, serve};
use crate::welcoming::Welcome;
use kp_conn::{Conn, Fed, Phase};
use kp_expiry::Expiry;
use kp_model::NoMemory;
use kp_raft::Raft;
use kp_seats::Seats;
use kp_snapshot::Image;
use kp_step::Seat;
use kp_storage::Storage;
use kp_watch::Watches;
use std::alloc::Global;

/// A connection that was greeted and stands aside.
#[derive(Drop)]
pub(crate) struct Guest {
    /// Its number.
    pub(crate) number: u64,

    pub(crate) conn: Conn,

    /// What was read of the bytes that it kept, where it serves a session now.
    pub(crate) fed: Option<Fed>,
}

/// Puts a connection at the place of the one with this number, if it is there, and answers that one.
pub(crate) fn swap_conn(seats: &mut Seats<Seat>, number: u64, conn: Conn) -> Conn
    ensures seats { seats.new ≡ swapped seats.old number conn (map.get seats.old.seats number) }
    ensures conn { result ≡ conn_in conn (map.get seats.old.seats number) }
{
    match seats.get_mut(number) {
        None => conn,
        Some(seat) => std::mem::replace(&mut seat.connection, conn),
    }
}

// Greets the connection with this number, which is there, and sets it aside. Without memory nothing has changed.
fn set_aside(
    alloc: Global,
    seats: &mut Seats<Seat>,
    number: u64,
    welcome: &Option<Welcome>,
) -> Result<Guest, NoMemory>
    ensures ok { IfOk result (λ g. IsAside welcome.now number seats.old g seats.new) }
    ensures err { OnErr result (seats.new ≡ seats.old) }
{
    let fed = greet_at(seats, number, welcome)?;
    let conn = swap_conn(seats, number, Conn::new(alloc));
    Ok(Guest { number, conn, fed })
}

// The same of a guest, if there is one, with room for its session.
fn set_guest_aside(
    alloc: Global,
    seats: &mut Seats<Seat>,
    guest: Option<u64>,
    welcome: &Option<Welcome>,
) -> Result<Option<Guest>, NoMemory>
    ensures ok { IfOk result (λ g. IsLetIn welcome.now seats.old guest g seats.new) }
    ensures err { OnErr result (seats.new ≡ seats.old) }
{
    let Some(number) = guest else {
        return Ok(None);
    };
    let had = seats.has_room();
    seats.make_room()?;
    match set_aside(alloc, seats, number, welcome) {
        Ok(guest) => Ok(Some(guest)),
        Err(none) => {
            seats.keep_room(had);
            Err(none)
        }
    }
}

/// The session that an entry opens or gives over is heard at this time, in milliseconds, and its guest is greeted and
/// stands aside. Without memory nothing has changed.
pub(crate) fn let_in(
    alloc: Global,
    seats: &mut Seats<Seat>,
    expiry: &mut Expiry,
    now: u64,
    guest: Option<u64>,
    welcome: &Option<Welcome>,
) -> Result<Option<Guest>, NoMemory>
    ensures seats { IfOk result (λ g. IsLetIn welcome.now seats.old guest g seats.new) }
    ensures heard { IfOk result (λ g. expiry.new ≡ heard_of now welcome.now expiry.old) }
    ensures err { OnErr result ((seats.new ≡ seats.old) × (expiry.new ≡ expiry.old)) }
{
    let before = heard_so_far(expiry, welcome);
    hear_welcome(expiry, now, welcome)?;
    match set_guest_aside(alloc, seats, guest, welcome) {
        Ok(guest) => Ok(guest),
        Err(none) => {
            unhear_welcome(expiry, welcome, before);
            Err(none)
        }
    }
}

// Serves what was read of a connection with this number, if anything was.
fn serve_some(
    alloc: Global,
    ground: Ground,
    raft: &mut Raft<Image>,
    storage: &mut Storage,
    watches: &mut Watches,
    number: u64,
    conn: &mut Conn,
    fed: Option<Fed>,
) -> Handed
    requires { is_lost conn.old.phase ≡ false }
    ensures { ServesSome ground number fed raft.old storage.old watches.old conn.old raft.new storage.new watches.new conn.new result }
{
    match fed {
        None => none_handed(alloc),
        Some(found) => serve(alloc, ground, raft, storage, watches, number, conn, found),
    }
}

// The session that a connection serves, if it serves one.
fn session_of(conn: &Conn) -> Option<u64>
    ensures { result ≡ served_by conn.now.phase }
{
    match conn.phase() {
        Phase::Live { session, .. } => Some(session),
        _ => None,
    }
}

// A connection that is there serves the session by the index, if there is one. Takes no memory.
fn join_some(seats: &mut Seats<Seat>, number: u64, session: Option<u64>)
    requires room { seats.old.has_room ≡ true }
    requires there { IsSome (map.get seats.old.seats number) }
    ensures { seats.new ≡ joined_if session number seats.old }
{
    if let Some(found) = session {
        let _ = seats.join(number, found);
    }
}

/// A guest is served and stands at its place again, for which there is room in the index of sessions.
pub(crate) fn seat_guest(
    alloc: Global,
    ground: Ground,
    raft: &mut Raft<Image>,
    storage: &mut Storage,
    watches: &mut Watches,
    seats: &mut Seats<Seat>,
    guest: Guest,
) -> Handed
    requires room { seats.old.has_room ≡ true }
    requires there { IsSome (map.get seats.old.seats guest.number) }
    requires live { is_lost guest.conn.phase ≡ false }
    ensures { IsSeated ground guest raft.old storage.old watches.old seats.old raft.new storage.new watches.new seats.new result }
{
    let Guest {
        number,
        mut conn,
        fed,
    } = guest;
    let handed = serve_some(
        alloc, ground, raft, storage, watches, number, &mut conn, fed,
    );
    let session = session_of(&conn);
    let blank = swap_conn(seats, number, conn);
    drop(blank);
    join_some(seats, number, session);
    handed
}
