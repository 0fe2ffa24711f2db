//! What is found before an entry is applied.

ghost use Rattle.std.specs.Prelude.{◌≡◌, ℕ, nat_eq, IfOk, IsTrue, false};
ghost use Rattle.std.specs.List.{list_any};
ghost use Rattle.kp_watch.specs.declared.watch.Fired.{Fired};
ghost use Rattle.std.specs.FinMap as map;
ghost use Rattle.kp_node.specs.Holding.{served_at};
ghost use Rattle.kp_node.specs.Prospects.{newcomer_by, is_connecting as is_connecting_so, waits_at, guest_in, hears_in, IsAlone, IsAmong, IsProspect};

use crate::changing::{count_lost, idle_among};
use crate::concerned::{concerned, server_of};
use crate::entry::newcomer;
use crate::meaning::is_late;
use crate::welcoming::{Welcome, welcome_for};
use crate::written::answer_in;
use kp_conn::Phase;
use kp_model::{Body, Event, NoMemory, Reply};
use kp_seats::Seats;
use kp_step::Seat;
use kp_storage::Storage;
use kp_watch::{Fired, Watches};
use kp_wire::WireReply;
use std::alloc::Global;

// More connections than `u32` counts.
const MOST: usize = 4294967296;

/// The connections that an entry may change, and how they stand before it.
#[derive(Drop)]
pub(crate) struct Among {
    /// Their numbers, ascending.
    pub(crate) conns: Vec<u64>,

    /// Those of them for which nothing is ready.
    pub(crate) idle: Vec<u64>,

    /// How many of them were given up.
    pub(crate) lost: usize,
}

/// What is found before an entry is applied.
#[derive(Drop)]
pub(crate) struct Prospect {
    /// Who hears of which of its events.
    pub(crate) fired: Vec<Fired>,

    /// The connection of its session.
    pub(crate) server: Option<u64>,

    /// The connection that waits for it.
    pub(crate) guest: Option<u64>,

    /// The connections that it may change.
    pub(crate) among: Among,

    /// What its write is answered.
    pub(crate) answer: Option<WireReply>,

    /// The session that it opens or gives over.
    pub(crate) welcome: Option<Welcome>,
}

// The connection that an entry is for, unless the entry came too late.
fn newcomer_of(node: u8, boot: u64, body: &Body, reply: &Reply) -> Option<u64>
    ensures { result ≡ newcomer_by node boot body.now reply.now }
{
    if is_late(reply) {
        None
    } else {
        newcomer(node, boot, body)
    }
}

// Whether a connection waits for the reply to its connect request.
fn is_connecting(phase: Phase) -> bool
    ensures { result ≡ is_connecting_so phase }
{
    matches!(phase, Phase::Connecting { .. })
}

// The same of the connection with this number, if it is there.
fn waits(seats: &Seats<Seat>, conn: u64) -> bool
    ensures { result ≡ waits_at (map.get seats.now.seats conn) }
{
    match seats.get(conn) {
        None => false,
        Some(seat) => is_connecting(seat.connection.phase()),
    }
}

// The connection with this number, if it waits so.
fn guest_of(seats: &Seats<Seat>, newcomer: Option<u64>) -> Option<u64>
    ensures { result ≡ guest_in seats.now.seats newcomer }
{
    match newcomer {
        None => None,
        Some(conn) => { if waits(seats, conn) { Some(conn) } else { None } }
    }
}

// Whether the connection hears.
fn is_among(fired: &[Fired], conn: u64) -> bool
    ensures { result ≡ list_any (λ (f : Fired). nat_eq conn f.conn) fired.now }
{
    fired.iter().any(|one| conn == one.conn)
}

// Whether the guest hears, if there is one.
fn hears(fired: &[Fired], guest: Option<u64>) -> bool
    ensures { result ≡ hears_in guest fired.now }
{
    match guest {
        None => false,
        Some(conn) => is_among(fired, conn),
    }
}

// Whether it is the same number, or none in both.
fn is_same(one: Option<u64>, other: Option<u64>) -> bool
    ensures { IsTrue result → one ≡ other }
{
    match one {
        None => other.is_none(),
        Some(number) => match other {
            None => false,
            Some(same) => number == same,
        },
    }
}

// Whether nobody else serves the session that the guest gets.
fn is_alone(
    seats: &Seats<Seat>,
    guest: Option<u64>,
    welcome: &Option<Welcome>,
    server: Option<u64>,
) -> bool
    ensures { IsTrue result → IsAlone seats.now guest welcome.now server }
{
    match guest {
        None => true,
        Some(_) => match welcome {
            None => true,
            Some(found) => is_same(seats.find(found.id), server),
        },
    }
}

// The connections that an entry may change.
fn look_among(
    alloc: Global,
    seats: &Seats<Seat>,
    fired: &[Fired],
    server: Option<u64>,
    guest: Option<u64>,
) -> Result<Among, NoMemory>
    ensures { IfOk result (λ a. IsAmong seats.now.seats fired.now server guest a) }
{
    let conns = concerned(alloc, fired, server, guest)?;
    if conns.len() >= MOST {
        return Err(NoMemory);
    }
    let idle = idle_among(alloc, seats, &conns)?;
    let lost = count_lost(seats, &conns);
    Ok(Among { conns, idle, lost })
}

/// Finds what the next entry is about to do: an entry of this body, which is answered so and has these events, at a node
/// that was started so often. A guest never hears, and nobody but the connection of the entry's session serves its session:
/// where it were not so, it is as if no memory was found.
pub(crate) fn foresee_entry(
    alloc: Global,
    node: u8,
    boot: u64,
    storage: &Storage,
    seats: &Seats<Seat>,
    watches: &Watches,
    body: &Body,
    reply: &Reply,
    events: &[Event],
) -> Result<Prospect, NoMemory>
    requires { (q : ℕ) → map.get seats.now.sessions q ≡ served_at (map.get seats.now.seats q) }
    ensures { IfOk result (λ a. IsProspect node boot storage.now.state.sessions seats.now watches.now body.now reply.now events.now a) }
{
    let welcome = welcome_for(storage, body, reply);
    let server = server_of(seats, body);
    let guest = guest_of(seats, newcomer_of(node, boot, body, reply));
    if !is_alone(seats, guest, &welcome, server) {
        return Err(NoMemory);
    }
    let fired = watches.plan(events)?;
    if hears(&fired, guest) {
        return Err(NoMemory);
    }
    let among = look_among(alloc, seats, &fired, server, guest)?;
    let answer = answer_in(alloc, seats, server, body, reply)?;
    Ok(Prospect {
        fired,
        server,
        guest,
        among,
        answer,
        welcome,
    })
}
