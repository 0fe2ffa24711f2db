//! What was read of a live connection joins its queue, and its writes are handed in.

ghost use Rattle.std.specs.Prelude.{◌≡◌, ◌≤◌, false, IfSome, OnOk, OnErr};
ghost use Rattle.kp_model.specs.declared.entry.Body.TheVariants as bodies_;
ghost use Rattle.kp_model.specs.Limits.{last_number};
ghost use Rattle.kp_raft.specs.Parts.{is_leader};
ghost use Rattle.kp_step.specs.Handing.{numbered as numbered_as, unnumbered as unnumbered_as};
ghost use Rattle.kp_node.specs.Joining.{led, write_number, IsHanded, IsJoinedWrite, IsJoinedOne, AreJoined, SameBeside, EndAlike};

use crate::proposing::{hand_in, leads};
use kp_ask::command;
use kp_conn::{Conn, Mark, Phase, Waiting};
use kp_model::limits::LAST_NUMBER;
use kp_model::{Body, Cmd, Items, NoMemory};
use kp_raft::Raft;
use kp_snapshot::Image;
use kp_storage::Storage;
use kp_wire::Request;
use std::alloc::Global;

/// What stays the same while a member serves its clients in one event.
#[derive(Clone, Copy)]
pub struct Ground {
    /// The number of the member, and how often it was started.
    pub me: u8,
    pub boot: u64,

    /// Its term, the leader that it knows, or 0, and whether it leads.
    pub term: u64,
    pub leader: u8,
    pub leads: bool,

    /// The time of the event, in milliseconds.
    pub now: u64,
}

/// The ground of a member in this run of its node, at this time, in milliseconds.
pub(crate) fn ground_at(raft: &Raft<Image>, boot: u64, now: u64) -> Ground
    ensures { result ≡ record { me = raft.now.node; boot = boot; term = raft.now.held.term; leader = raft.now.vars.leader; leads = is_leader raft.now.vars.role; now = now } }
{
    Ground {
        me: raft.node(),
        boot,
        term: raft.term(),
        leader: raft.leader(),
        leads: leads(raft),
        now,
    }
}

impl Ground {
    // Whether a leader is known; one whose log is full leads no more.
    pub(crate) fn is_led(self, storage: &Storage) -> bool
        ensures { result ≡ led self storage.now }
    {
        self.leader != 0 && (!self.leads || storage.last() < LAST_NUMBER)
    }
}

// A request that goes into no log.
fn unnumbered(request: Request) -> Waiting
    ensures { result ≡ unnumbered_as request }
{
    Waiting {
        request,
        mark: None,
        reply: None,
    }
}

// A write with its number, in this term.
fn numbered(request: Request, seq: u64, term: u64) -> Waiting
    ensures { result ≡ numbered_as request seq term }
{
    Waiting {
        request,
        mark: Some(Mark { seq, term }),
        reply: None,
    }
}

// Where a write stands: its session and epoch, and its number in them.
#[derive(Clone, Copy)]
pub struct Place {
    pub session: u64,
    pub epoch: u64,
    pub seq: u64,
}

// Where a connection's next write stands, where a leader is known and its number is none too great.
fn number_for(led: bool, phase: Phase) -> Option<Place>
    ensures number { result ≡ write_number led phase }
    ensures range { IfSome result (λ p. p.seq ≤ last_number) }
{
    match phase {
        Phase::Live {
            session,
            epoch,
            next,
        } => {
            if led && next <= LAST_NUMBER {
                Some(Place {
                    session,
                    epoch,
                    seq: next,
                })
            } else {
                None
            }
        }
        _ => None,
    }
}

/// A body of an own client is handed in: the leader takes it, and another member sends it to the leader. Without memory
/// nothing has changed.
pub(crate) fn hand(
    ground: Ground,
    storage: &mut Storage,
    body: Body,
    bodies: &mut Vec<Body>,
    forwards: &mut Vec<Body>,
) -> Result<(), NoMemory>
    ensures ok { OnOk result (IsHanded ground storage.old bodies.old.items forwards.old.items body storage.new bodies.new.items forwards.new.items) }
    ensures err { OnErr result (SameBeside storage.old bodies.old.items forwards.old.items storage.new bodies.new.items forwards.new.items) }
{
    if ground.leads {
        return hand_in(storage, ground.term, ground.now, body, bodies);
    }
    forwards.push(body)?;
    Ok(())
}

// The write of a session at its place.
fn write_at(place: Place, cmd: Cmd) -> Body
    ensures { result ≡ bodies_.Write place.session place.epoch place.seq cmd }
{
    Body::Write {
        session: place.session,
        epoch: place.epoch,
        seq: place.seq,
        cmd,
    }
}

// A write joins with its number and is handed in, or without a number where it may have none.
fn join_write(
    ground: Ground,
    storage: &mut Storage,
    conn: &mut Conn,
    request: Request,
    cmd: Cmd,
    bodies: &mut Vec<Body>,
    forwards: &mut Vec<Body>,
) -> Result<(), NoMemory>
    ensures ok { OnOk result (IsJoinedWrite ground request cmd storage.old bodies.old.items forwards.old.items conn.old storage.new bodies.new.items forwards.new.items conn.new) }
    ensures err { OnErr result (SameBeside storage.old bodies.old.items forwards.old.items storage.new bodies.new.items forwards.new.items) }
    ensures given_up { OnErr result (EndAlike conn.old conn.new) }
{
    match number_for(ground.is_led(storage), conn.phase()) {
        None => {
            drop(cmd);
            conn.join(unnumbered(request))
        }
        Some(place) => match conn.join(numbered(request, place.seq, ground.term)) {
            Err(none) => {
                drop(cmd);
                Err(none)
            }
            Ok(()) => {
                let body = write_at(place, cmd);
                hand(ground, storage, body, bodies, forwards)
            }
        },
    }
}

// One request joins. Without memory nothing was handed in, and the connection is to be given up.
fn join_one(
    alloc: Global,
    ground: Ground,
    storage: &mut Storage,
    conn: &mut Conn,
    request: Request,
    bodies: &mut Vec<Body>,
    forwards: &mut Vec<Body>,
) -> Result<(), NoMemory>
    ensures ok { OnOk result (IsJoinedOne ground request storage.old bodies.old.items forwards.old.items conn.old storage.new bodies.new.items forwards.new.items conn.new) }
    ensures err { OnErr result (SameBeside storage.old bodies.old.items forwards.old.items storage.new bodies.new.items forwards.new.items) }
    ensures given_up { OnErr result (EndAlike conn.old conn.new) }
{
    match command(alloc, &request.ask) {
        Err(none) => {
            drop(request);
            Err(none)
        }
        Ok(None) => conn.join(unnumbered(request)),
        Ok(Some(cmd)) => { join_write(ground, storage, conn, request, cmd, bodies, forwards) }
    }
}

/// The requests of a live connection join its queue, one after another, and their writes are handed in. Where one finds no
/// memory, the connection is given up.
pub(crate) fn join_all(
    alloc: Global,
    ground: Ground,
    storage: &mut Storage,
    conn: &mut Conn,
    requests: Items<Request>,
    bodies: &mut Vec<Body>,
    forwards: &mut Vec<Body>,
)
    ensures { AreJoined ground requests storage.old bodies.old.items forwards.old.items conn.old storage.new bodies.new.items forwards.new.items conn.new }
{
    for request in requests.into_vec() {
        match join_one(alloc, ground, storage, conn, request, bodies, forwards) {
            Ok(()) => {}
            Err(_) => {
                conn.close(true);
                return;
            }
        }
    }
}
