// The connections of a node in memory, with a list of what happens outside.
ghost use Rattle.std.specs.Prelude.{◌≡◌, ◌≤◌, ℕ, [], None, false, length};
ghost use Rattle.kp_lines.specs.Tables.{state_at};
ghost use Rattle.kp_worker.specs.Outside.{HeardWithin};

use crate::message::Message;
use kp_event::{Said, Standing};
use kp_io::Failed;
use kp_lines::{Past, Port, Table, Tended, Wakes};
use kp_model::Bytes;
use kp_worker::{Arrived, Due, Heard, Inbox, Pace, Woken};
use std::alloc::Global;
use std::sync::Wait;

/// Who comes: the bytes that come of it, in pieces of at most so many; whether it reads at once; and how many bytes it takes before
/// it breaks off.
#[derive(Clone, Copy, Drop)]
pub struct Visitor {
    pub bytes: &'static [u8],
    pub most: usize,
    pub reads: bool,
    pub room: usize,
}

/// A connection in memory, and what was handed to it.
#[derive(Drop)]
pub struct Pieces {
    alloc: Global,
    visitor: Visitor,
    at: usize,
    reads: bool,
    broken: bool,
    handed: Vec<u8>,
}

impl Pieces {
    // Takes the next piece, of at most so many bytes.
    fn next_piece(&mut self, most: usize) -> Heard
        ensures { HeardWithin result }
    {
        let bytes = self.visitor.bytes;
        let rest = &bytes[self.at.min(bytes.len())..];
        let count = rest.len().min(most).min(65_536);
        if count == 0 {
            return Heard::End;
        }
        match Vec::from_slice(self.alloc, &rest[..count]) {
            Ok(piece) => {
                self.at = self.at.saturating_add(count);
                Heard::Bytes(Bytes::from_vec(piece))
            }
            Err(_) => Heard::Fault,
        }
    }
}

impl Port for Pieces {
    ghost tells = { false };

    ghost told = { λ p. [] };

    ghost handed = { λ p. [] };

    ghost free = { λ p. p.reads };

    fn take(&mut self) -> Heard {
        if self.broken {
            return Heard::Fault;
        }
        self.next_piece(self.visitor.most)
    }

    fn answer_end(&mut self) {}

    fn hand(&mut self, bytes: &[u8]) {
        let room = self.visitor.room.saturating_sub(self.handed.len());
        if room < bytes.len() {
            self.broken = true;
        }
        let _ = self
            .handed
            .extend_from_slice(&bytes[..room.min(bytes.len())]);
    }

    fn is_free(&self) -> bool {
        self.reads
    }

    fn flow(&mut self) -> bool {
        let kept = !self.reads;
        self.reads = true;
        kept
    }
}

/// What was handed to connections that were let go.
#[derive(Drop)]
pub struct Handed {
    all: Vec<(u64, Vec<u8>)>,
}

impl Past<Pieces> for Handed {
    ghost told = { λ h c. [] };

    ghost handed = { λ h c. [] };

    fn keep(&mut self, conn: u64, port: Pieces) {
        let Pieces { handed, .. } = port;
        let _ = self.all.push((conn, handed));
    }
}

/// What a wait finds: someone comes; connections are ready; or one takes what was kept for it.
#[derive(Clone, Copy, Drop)]
pub enum Happening {
    /// Someone who says these bytes in pieces of at most so many, and reads.
    Talker(&'static [u8], usize),

    /// Someone who says these bytes, and reads nothing until it is freed.
    Deaf(&'static [u8]),

    /// Someone who says these bytes by twos, and breaks off behind so many bytes that were handed to it.
    Brittle(&'static [u8], usize),

    Ready(&'static [u64]),
    Frees(u64),
}

/// What happens, one thing at each wait. Behind its list waiting fails.
#[derive(Drop)]
pub struct Happenings {
    alloc: Global,
    list: Vec<Happening>,
    at: usize,
    faults: u64,
}

// Someone comes.
fn come(
    alloc: Global,
    table: &mut Table<Pieces, Handed>,
    visitor: Visitor,
    draws: &mut Vec<[u8; 16]>,
)
    requires { draws.old.items ≡ [] }
    ensures state { (c : ℕ) → state_at table.new.slots c ≡ state_at table.old.slots c }
    ensures waits { length draws.new.items ≤ length table.new.fresh.items }
{
    let port = Pieces {
        alloc,
        visitor,
        at: 0,
        reads: visitor.reads,
        broken: false,
        handed: Vec::new(alloc),
    };
    if table.accept(port) {
        let _ = draws.push([0; 16]);
    }
}

// A connection takes what was kept for it.
fn set_free(table: &mut Table<Pieces, Handed>, conn: u64, free: &mut Vec<u64>)
    ensures state { (c : ℕ) → state_at table.new.slots c ≡ state_at table.old.slots c }
{
    if table.flow(conn) {
        let _ = free.push(conn);
    }
}

// Who comes.
fn visitor_of(bytes: &'static [u8], most: usize, reads: bool, room: usize) -> Visitor {
    Visitor {
        bytes,
        most,
        reads,
        room,
    }
}

// What one thing that happens makes ready.
fn happen(alloc: Global, table: &mut Table<Pieces, Handed>, happening: Happening) -> Woken
    ensures state { (c : ℕ) → state_at table.new.slots c ≡ state_at table.old.slots c }
    ensures waits { length result.draws.items ≤ length table.new.fresh.items }
{
    let mut ready = Vec::new(alloc);
    let mut free = Vec::new(alloc);
    let mut draws = Vec::new(alloc);
    match happening {
        Happening::Talker(bytes, most) => {
            come(alloc, table, visitor_of(bytes, most, true, 100), &mut draws);
        }
        Happening::Deaf(bytes) => {
            come(alloc, table, visitor_of(bytes, 9, false, 100), &mut draws);
        }
        Happening::Brittle(bytes, room) => {
            come(alloc, table, visitor_of(bytes, 2, true, room), &mut draws);
        }
        Happening::Ready(conns) => {
            let _ = ready.extend_from_slice(conns);
        }
        Happening::Frees(conn) => set_free(table, conn, &mut free),
    }
    Woken { ready, free, draws }
}

impl Wakes<Pieces, Handed> for Happenings {
    ghost faults = { λ h. h.faults };

    fn wait<R: Wait>(
        &mut self,
        _rt: &R,
        table: &mut Table<Pieces, Handed>,
        _most: u64,
    ) -> Result<Woken, Failed> {
        if self.at >= self.list.len() {
            self.faults = self.faults.saturating_add(1);
            return Err(Failed);
        }
        let happening = self.list[self.at];
        self.at += 1;
        Ok(happen(self.alloc, table, happening))
    }
}

/// The outside of a node in memory.
pub type Board = Tended<Pieces, Handed, Happenings>;

/// An outside in which these things happen.
pub fn board_of(alloc: Global, list: Vec<Happening>) -> Board {
    Tended {
        table: Table::new(
            alloc,
            Handed {
                all: Vec::new(alloc),
            },
        ),
        wakes: Happenings {
            alloc,
            list,
            at: 0,
            faults: 0,
        },
    }
}

/// Whether these bytes were handed to a connection, and no others.
pub fn was_handed(board: &Board, conn: u64, bytes: &[u8]) -> bool {
    if let Some(port) = board.table.port(conn) {
        return port.handed.as_slice() == bytes;
    }
    for (to, handed) in &board.table.past().all {
        if *to == conn {
            return handed.as_slice() == bytes;
        }
    }
    bytes.is_empty()
}

/// Links on which nothing comes but one message.
#[derive(Drop)]
pub struct OneMessage {
    pub message: Option<Message>,
}

impl Inbox<Message> for OneMessage {
    ghost taken = { λ b. λ c. None };

    fn take<R: Wait>(&mut self, _rt: &R) -> Option<Arrived<Message>> {
        match self.message.take() {
            Some(mail) => Some(Arrived { from: 2, mail }),
            None => None,
        }
    }
}

/// A pace at which something is due at each turn.
#[derive(Drop)]
pub struct Always {
    pub leaders: u64,
    pub thoughts: u64,
}

impl Pace for Always {
    fn pause(&mut self, _now: u64) -> u64 {
        50
    }

    fn due(&mut self, _now: u64) -> Due {
        Due {
            timeout: true,
            tick: true,
            snapshot: true,
        }
    }

    fn hears_leader(&mut self, _now: u64) {
        self.leaders = self.leaders.saturating_add(1);
    }

    fn sees(&mut self, _said: &Said, _standing: Standing) {
        self.thoughts = self.thoughts.saturating_add(1);
    }
}
