//! Connections come, go, and take what is ready for them.

ghost use Rattle.std.specs.Prelude.{◌≡◌, ◌^◌, ◌<◌, Some, None, IfOk, OnOk, OnErr, if◌then◌else◌};
ghost use Rattle.std.specs.Option.{option_map};
ghost use Rattle.std.specs.FinMap as map;
ghost use Rattle.kp_event.specs.declared.event.NodeEventKind.TheVariants as kind;
ghost use Rattle.kp_event.specs.declared.said.Said.TheVariants as says;
ghost use Rattle.kp_seats.specs.Seating.{removed};
ghost use Rattle.kp_watch.specs.Watching.{dropped};
ghost use Rattle.kp_conn.specs.Connection.{out_piece};
ghost use Rattle.kp_step.specs.declared.seat.Seat.{Seat};
ghost use Rattle.kp_step.specs.Choices.{Choices};
ghost use Rattle.kp_step.specs.Step.{accept_turn, hangup_turn, drain_turn, piece_of, standing_of};
ghost use Rattle.kp_node.specs.Parts.{node_of};
ghost use Rattle.kp_node.specs.Steps.{Steps, aside, quietly};
ghost use Rattle.kp_node.specs.Coming.{come, gone, emptied_seating, drained_seating, drained_watches};

use crate::node::Node;
use crate::outcome::Outcome;
use crate::said::piece;
use kp_conn::Conn;
use kp_event::{OutPiece, Said};
use kp_model::NoMemory;
use kp_seats::Seats;
use kp_step::Seat;
use kp_watch::Watches;

impl Node {
    // A connection comes. After an error nothing has changed.
    pub(crate) fn accept(&mut self, draw: [u8; 16]) -> Result<Outcome, NoMemory>
        requires { self.old.events < 2 ^ 62 }
        ensures ok { IfOk result (λ o. (ch : Choices) → Steps (aside ch (node_of self.old) (kind.Accept draw) (accept_turn (node_of self.old) draw)) self.old self.new o) }
        ensures err { OnErr result (self.new ≡ self.old) }
    {
        let conn = self.let_in(draw)?;
        Ok(self.quiet(Said::Conn(conn)))
    }

    // The connection gets the next number.
    fn let_in(&mut self, draw: [u8; 16]) -> Result<u64, NoMemory>
        requires { self.old.events < 2 ^ 62 }
        ensures step { IfOk result (λ k. (ch : Choices) → Steps (aside ch (node_of self.old) (kind.Accept draw) (accept_turn (node_of self.old) draw)) self.old self.new (quietly (says.Conn k) (standing_of (node_of self.new)))) }
        ensures err { OnErr result (self.new ≡ self.old) }
    {
        let seat = Seat {
            draw,
            connection: Conn::new(self.alloc),
        };
        let conn = self.seats.accept(seat)?;
        self.events += 1;
        Ok(conn)
    }

    // A connection has no input any more: it goes, with its watches. Takes no memory.
    pub(crate) fn hangup(&mut self, conn: u64) -> Outcome
        requires { self.old.events < 2 ^ 62 }
        ensures { (ch : Choices) → Steps (aside ch (node_of self.old) (kind.Hangup conn) (hangup_turn (node_of self.old) conn)) self.old self.new result }
    {
        let there = self.let_go(conn);
        self.quiet(Said::Hung(there))
    }

    // The connection goes, if it is there.
    fn let_go(&mut self, conn: u64) -> bool
        requires { self.old.events < 2 ^ 62 }
        ensures { (ch : Choices) → Steps (aside ch (node_of self.old) (kind.Hangup conn) (hangup_turn (node_of self.old) conn)) self.old self.new (quietly (says.Hung result) (standing_of (node_of self.new))) }
    {
        let there = take_away(&mut self.seats, &mut self.watches, conn);
        self.events += 1;
        there
    }

    // What is ready for a connection goes out, and with it the connection, where it is over. Takes no memory.
    pub(crate) fn drain(&mut self, conn: u64) -> Outcome
        requires { self.old.events < 2 ^ 62 }
        ensures { (ch : Choices) → Steps (aside ch (node_of self.old) (kind.Drain conn) (drain_turn (node_of self.old) conn (map.get (node_of self.old).seats conn))) self.old self.new result }
    {
        let ready = self.let_out(conn);
        self.quiet(Said::Out(ready))
    }

    // Takes what is ready for the connection, if it is there, and the connection itself, if it is over.
    fn let_out(&mut self, conn: u64) -> Option<OutPiece>
        requires { self.old.events < 2 ^ 62 }
        ensures { (ch : Choices) → Steps (aside ch (node_of self.old) (kind.Drain conn) (drain_turn (node_of self.old) conn (map.get (node_of self.old).seats conn))) self.old self.new (quietly (says.Out result) (standing_of (node_of self.new))) }
    {
        let ready = take_ready(&mut self.seats, &mut self.watches, conn);
        self.events += 1;
        ready
    }
}

// Takes what is ready for a connection, if it is there, and the connection with its watches, if it is over.
fn take_ready(seats: &mut Seats<Seat>, watches: &mut Watches, conn: u64) -> Option<OutPiece>
    ensures piece { result ≡ option_map (λ (s : Seat). piece_of s.connection) (map.get seats.old.seats conn) }
    ensures seats { seats.new ≡ drained_seating seats.old conn (map.get seats.old.seats conn) }
    ensures watches { watches.new ≡ drained_watches watches.old conn (map.get seats.old.seats conn) }
{
    let ready = empty_outbox(seats, conn)?;
    take_away_if(ready.over, seats, watches, conn);
    Some(piece(ready))
}

// Takes a connection away, and its watches, where it is over.
fn take_away_if(over: bool, seats: &mut Seats<Seat>, watches: &mut Watches, conn: u64)
    ensures seats { seats.new ≡ (if over then removed seats.old conn else seats.old) }
    ensures watches { watches.new ≡ (if over then dropped watches.old conn else watches.old) }
{
    if over {
        take_away(seats, watches, conn);
    }
}

// Takes what is to go out on a connection, if it is there.
fn empty_outbox(seats: &mut Seats<Seat>, conn: u64) -> Option<kp_conn::OutPiece>
    ensures piece { result ≡ option_map (λ (s : Seat). out_piece s.connection) (map.get seats.old.seats conn) }
    ensures seats { seats.new ≡ emptied_seating seats.old conn (map.get seats.old.seats conn) }
{
    match seats.get_mut(conn) {
        None => None,
        Some(seat) => Some(seat.connection.drain()),
    }
}

// Takes a connection away, and its watches, and answers whether it was there.
fn take_away(seats: &mut Seats<Seat>, watches: &mut Watches, conn: u64) -> bool
    ensures there { result ≡ map.contains_key seats.old.seats conn }
    ensures seats { seats.new ≡ removed seats.old conn }
    ensures watches { watches.new ≡ dropped watches.old conn }
{
    watches.drop_conn(conn);
    match seats.remove(conn) {
        None => false,
        Some(seat) => {
            drop(seat);
            true
        }
    }
}
