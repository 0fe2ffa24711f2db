//! Connections by their numbers, and the sessions that they serve.
use kp_seats::{Change, NoMemory, Seats, change_all};
use std::alloc::Global;
use std::test::Fail;

// Whether these connections are there, in their order, with what they hold.
fn are_there(seats: &Seats<u64>, all: &[(u64, u64)]) -> bool {
    let mut conn = 0;
    for (next, held) in all {
        if seats.next_after(conn) != Some(*next) || seats.get(*next).copied() != Some(*held) {
            return false;
        }
        conn = *next;
    }
    seats.next_after(conn) == None
}

// The connection comes to serve the session. Answers the one that did.
fn join(seats: &mut Seats<u64>, conn: u64, session: u64) -> Result<Option<u64>, NoMemory> {
    if seats.get(conn).is_none() {
        return Ok(None);
    }
    seats.make_room()?;
    Ok(seats.join(conn, session))
}

// What the connection holds is another value from now on.
fn write(seats: &mut Seats<u64>, conn: u64, held: u64) {
    if let Some(seat) = seats.get_mut(conn) {
        *seat = held;
    }
}

// Whether three connections are numbered from 1, and what the second one holds is written over.
fn are_numbered(seats: &mut Seats<u64>) -> Result<bool, NoMemory> {
    let first = seats.accept(10)?;
    let second = seats.accept(20)?;
    let third = seats.accept(30)?;
    write(seats, 2, 21);
    write(seats, 4, 40);
    let listed = are_there(seats, &[(1, 10), (2, 21), (3, 30)]);
    Ok(first == 1 && second == 2 && third == 3 && seats.next() == 4 && listed)
}

// Whether the session 7 of the first connection is taken over by the third, which served 8.
fn is_taken_over(seats: &mut Seats<u64>) -> Result<bool, NoMemory> {
    let first = join(seats, 1, 7)?;
    let third = join(seats, 3, 8)?;
    let taken = join(seats, 3, 7)?;
    let served = seats.find(7) == Some(3) && seats.session(3) == Some(7);
    let left = seats.session(1) == None && seats.find(8) == None;
    Ok(first == None && third == None && taken == Some(1) && served && left)
}

// Whether sessions end from either side, and a connection that is removed comes back no more.
fn are_ended(seats: &mut Seats<u64>) -> Result<bool, NoMemory> {
    let joined = join(seats, 1, 8)? == None && join(seats, 2, 9)? == None;
    let ended = seats.end(8) == Some(1) && seats.end(8) == None;
    let left = seats.leave(2) == Some(9) && seats.leave(2) == None;
    let removed = seats.remove(3) == Some(30) && seats.remove(3) == None;
    let gone = seats.find(7) == None && seats.session(3) == None;
    let fourth = seats.accept(40)? == 4;
    let listed = are_there(seats, &[(1, 10), (2, 21), (4, 40)]) && seats.len() == 3;
    Ok(joined && ended && left && removed && gone && fourth && listed)
}

// Makes all connections hold one value.
struct Level {
    to: u64,
}

impl Change<u64> for Level {
    ghost use Rattle.std.specs.Prelude.{◌≡◌};

    ghost changes = { λ level conn old new. new ≡ level.to };

    fn change(&self, _conn: u64, seat: &mut u64) {
        *seat = self.to;
    }
}

#[test]
fn connections_serve_sessions(rt: HostRuntime) -> Result<(), Fail> {
    let mut seats = Seats::new(rt.alloc());
    let numbered = are_numbered(&mut seats)?;
    let taken = is_taken_over(&mut seats)?;
    let ended = are_ended(&mut seats)?;
    change_all(&mut seats, &Level { to: 5 });
    let levelled = are_there(&seats, &[(1, 5), (2, 5), (4, 5)]);
    assert!(rt; numbered && taken && ended && levelled);
    Ok(())
}
