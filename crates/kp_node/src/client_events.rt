//! Bytes of a client come.

ghost use Rattle.std.specs.Prelude.{◌≡◌, ◌+◌, ◌^◌, ◌<◌, ◌∷◌, [], true, length, List, Some, IfOk, OnErr, ℕ};
ghost use Rattle.std.specs.FinMap as map;
ghost use Rattle.kp_step.specs.Asking.{Words};
ghost use Rattle.kp_step.specs.Choices.{Choices};
ghost use Rattle.kp_step.specs.Step.{standing_of};
ghost use Rattle.kp_node.specs.Changing.{ready_among, lost_among};
ghost use Rattle.kp_node.specs.Clients.{IsFed, client_step, given_fed, takes_none};
ghost use Rattle.kp_node.specs.Holding.{served_at};
ghost use Rattle.kp_node.specs.Parts.{node_of};
ghost use Rattle.kp_node.specs.Steps.{Steps};

use crate::changing::{idle_among, is_given_up, keep_ready};
use crate::deadlines::{hear_client, unhear_client};
use crate::joining::ground_at;
use crate::node::Node;
use crate::outcome::Outcome;
use crate::said::fed_word;
use crate::serving::Handed;
use crate::taking::{Taken, take_at};
use kp_event::{FedWord, Said};
use kp_model::{Items, NoMemory};
use kp_seats::Seats;
use kp_step::Seat;

/// What bytes of a client gave, and what came of its connection.
#[derive(Drop)]
pub(crate) struct Read {
    pub(crate) taken: Taken,
    pub(crate) ready: Items<u64>,
    pub(crate) lost: u32,
}

impl Node {
    // Bytes come of a connection that isn't there, or is over: they are dropped.
    pub(crate) fn client_gone(&mut self, now: u64, conn: u64, bytes: &[u8]) -> Outcome
        requires events { self.old.events < 2 ^ 62 }
        requires gone { takes_none (map.get self.old.seating.seats conn) ≡ true }
        ensures { (words : Words) (ch : Choices) → Steps (client_step words ch (node_of self.old) now conn bytes.now) self.old self.new result }
    {
        // To lend a field opens what the type says of the node.
        let _raft = &self.raft;
        self.count_event();
        self.quiet(Said::Fed(FedWord::Unknown))
    }

    // One event more was taken.
    pub(crate) fn count_event(&mut self)
        requires { self.old.events < 2 ^ 62 }
        ensures { self.new ≡ record self.old { events = self.old.events + 1 } }
    {
        self.events += 1;
    }

    // Bytes come of a live connection, which serves this session. After an error nothing has changed.
    pub(crate) fn client_live(
        &mut self,
        now: u64,
        conn: u64,
        session: u64,
        bytes: &[u8],
    ) -> Result<Outcome, NoMemory>
        requires events { self.old.events < 2 ^ 62 }
        requires session { served_at (map.get self.old.seating.seats conn) ≡ Some session }
        ensures ok { IfOk result (λ o. (words : Words) → (ch : Choices) × Steps (client_step words ch (node_of self.old) now conn bytes.now) self.old self.new o) }
        ensures err { OnErr result (self.new ≡ self.old) }
    {
        let _commit = self.raft.commit();
        let read = self.take_bytes(now, conn, session, bytes)?;
        Ok(self.give_read(read))
    }

    // The session is heard, and its connection takes the bytes. After an error nothing has changed.
    fn take_bytes(
        &mut self,
        now: u64,
        conn: u64,
        session: u64,
        bytes: &[u8],
    ) -> Result<Read, NoMemory>
        requires events { self.old.events < 2 ^ 62 }
        requires session { served_at (map.get self.old.seating.seats conn) ≡ Some session }
        ensures ok { IfOk result (λ r. (text : List ℕ → List ℕ) → IsFed now conn text bytes.now self.old r self.new) }
        ensures err { OnErr result (self.new ≡ self.old) }
    {
        let _commit = self.raft.commit();
        let ground = ground_at(&self.raft, self.boot, now);
        let idle = idle_among(self.alloc, &self.seats, &[conn])?;
        let before = match hear_client(
            &mut self.expiry,
            &mut self.spoken,
            &self.storage.committed(),
            now,
            session,
        ) {
            Ok(before) => before,
            Err(none) => {
                drop(idle);
                return Err(none);
            }
        };
        match take_at(
            self.alloc,
            ground,
            &mut self.raft,
            &mut self.storage,
            &mut self.watches,
            &mut self.seats,
            conn,
            bytes,
        ) {
            Err(none) => {
                drop(idle);
                unhear_client(
                    &mut self.expiry,
                    &mut self.spoken,
                    &self.storage.committed(),
                    session,
                    before,
                );
                Err(none)
            }
            Ok(taken) => {
                self.events += 1;
                Ok(gather(&self.seats, conn, idle, taken))
            }
        }
    }

    // What is given of it.
    pub(crate) fn give_read(&self, read: Read) -> Outcome
        ensures { result ≡ given_fed read (standing_of (node_of self.now)) }
    {
        let Handed { records, mail } = read.taken.handed;
        Outcome {
            said: Said::Fed(fed_word(read.taken.end)),
            records,
            image: None,
            mail,
            cut: None,
            lost: read.lost,
            standing: self.standing(),
            ready: read.ready,
        }
    }
}

// What bytes gave, whether something is ready for their connection, and whether it was given up. `idle` has it where
// nothing was ready for it before.
pub(crate) fn gather(seats: &Seats<Seat>, conn: u64, mut idle: Vec<u64>, taken: Taken) -> Read
    ensures { result ≡ record { taken = taken; ready = ready_among seats.now.seats idle.items; lost = length (lost_among seats.now.seats (conn ∷ [])) } }
{
    keep_ready(seats, &mut idle);
    Read {
        taken,
        ready: Items::from_vec(idle),
        lost: if is_given_up(seats, conn) { 1 } else { 0 },
    }
}
