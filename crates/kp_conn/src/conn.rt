//! A connection.

ghost use Rattle.std.specs.Prelude.{◌≡◌, ◌≤◌, ◌<◌, ◌+◌, [], ◌∷◌, ◌++◌, length, take, drop, nat_lt, slice_get, option_copied, option_map, is_some, IfOk, OnOk, OnErr};
ghost use Rattle.kp_model.specs.Limits.{last_number};
ghost use Rattle.kp_conn.specs.Connection.{blank, put, taken_back, closed, joined, answered, answered_kept, settled, serving, opened, begun_again, live_as, drained, out_piece};
ghost use Rattle.kp_conn.specs.Fed.{fed, fed_first, with_piece, nothing, IsLive, LiesIn};
ghost use Rattle.kp_conn.specs.Packets.{event_packet};
ghost use Rattle.kp_conn.specs.Queue.{SeqFits, awaited};
ghost use Rattle.kp_conn.specs.declared.phase.Phase.TheVariants as phases;
ghost use Rattle.kp_conn.specs.declared.first.First.TheVariants as firsts;

use crate::beginning::Beginning;
use crate::fed::{Fed, FedEnd, OutPiece, read_connect, read_end, read_requests};
use crate::feeding::take_piece;
use crate::first::{First, begin_with};
use crate::kept::keep_rest;
use crate::packets::{put_packet, write_connect_packet, write_event_packet, write_reply_packet};
use crate::phase::Phase;
use crate::queue::{find_number, settle_at};
use crate::waiting::Waiting;
use kp_model::limits::LAST_NUMBER;
use kp_model::{Bytes, Event, NoMemory};
use kp_region::Region;
use kp_wire::{ConnectReply, ConnectRequest, WireReply};
use std::alloc::Global;
use std::collections::VecDeque;
use std::marker::Model;

/// One connection of a client: the bytes that came and were not taken yet, the requests that wait, and the packets
/// that go out. No call looks at a clock, at a state or at another connection.
///
/// A call that answers `NoMemory` has changed nothing.
#[derive(Drop)]
pub struct Conn {
    alloc: Global,
    phase: Phase,
    kept: Vec<u8>,
    // the place in the stream of the first byte that is kept
    place: u64,
    queue: VecDeque<Waiting>,
    outbox: Region,
}

impl Model for Conn {
    ghost use Rattle.std.specs.Prelude.{◌+◌, ◌≤◌, vec_len};
    ghost use Rattle.kp_model.specs.Limits.{last_number};
    ghost use Rattle.kp_conn.specs.Connection.{Connection};
    ghost use Rattle.kp_conn.specs.Codes.{connection_code};

    ghost Value = { Connection };

    ghost coded = { connection_code };

    ghost view = { λ c. record { phase = c.phase; kept = c.kept.items; place = c.place; queue = c.queue.items; outbox = c.outbox.strings } };

    ghost invariant = { λ c. c.place + vec_len c.kept ≤ last_number };
}

impl Conn {
    /// A connection of which nothing came yet. It takes its memory from this allocator.
    pub fn new(alloc: Global) -> Conn
        ensures { result ≡ blank }
    {
        Conn {
            alloc,
            phase: Phase::Fresh,
            kept: Vec::new(alloc),
            place: 0,
            queue: VecDeque::new(alloc),
            outbox: Region::new(alloc),
        }
    }

    /// Takes a piece of the client's bytes and reads the whole frames that the phase allows: of a new connection a
    /// connect request, which makes it connecting, or a four-letter word; of a live one all requests. While it is
    /// connecting, bytes are only kept, and a piece of no bytes reads them once it is live. A closing connection takes
    /// nothing. A frame whose length is below 0 or above 1,048,575, or which is no record, ends the reading at its
    /// place: the caller closes the connection behind the answers to the requests before it.
    ///
    /// Answers `NoMemory` also where the stream would pass 2^62 bytes. The cost is that of the piece's bytes and of the
    /// frames that end in it, however the stream is cut.
    pub fn feed(&mut self, piece: &[u8]) -> Result<Fed, NoMemory>
        ensures ok { IfOk result (λ f. fed self.old piece.now ≡ (self.new, f)) }
        ensures err { OnErr result (self.new ≡ self.old) }
    {
        if LAST_NUMBER - self.place - (self.kept.len() as u64) < piece.len() as u64 {
            return Err(NoMemory);
        }
        match self.phase {
            Phase::Fresh => self.feed_fresh(piece),
            Phase::Connecting { .. } => self.keep(piece),
            Phase::Live { .. } => self.feed_live(piece),
            Phase::Closing { .. } => Ok(read_end(self.alloc, FedEnd::Ok)),
        }
    }

    /// Puts a request at the back. One with a mark makes the next number one more than the mark's.
    pub fn join(&mut self, waiting: Waiting) -> Result<(), NoMemory>
        requires { SeqFits waiting.mark }
        ensures ok { OnOk result (self.new ≡ joined waiting self.old) }
        ensures err { OnErr result (self.new ≡ self.old) }
    {
        if self.queue.reserve(1).is_err() {
            drop(waiting);
            return Err(NoMemory);
        }
        self.phase = self.phase.behind(&waiting.mark);
        self.queue.push_back_reserved(waiting);
        Ok(())
    }

    /// Lends the request at the front.
    pub fn front(&self) -> Option<&Waiting>
        ensures { option_copied result ≡ slice_get self.now.queue 0 }
    {
        self.queue.front()
    }

    /// Lends the first request whose mark has this number, which `settle` would give its reply. None for 0.
    pub fn awaiting(&self, seq: u64) -> Option<&Waiting>
        ensures { option_copied result ≡ awaited seq self.now.queue }
    {
        self.queue.get(find_number(&self.queue, seq))
    }

    /// How many requests wait.
    pub fn waiting(&self) -> usize
        ensures { result ≡ length self.now.queue }
    {
        self.queue.len()
    }

    /// Answers the request at the front: its packet goes out, with the index of the last entry that it shows, and the
    /// request leaves. Answers `NoMemory` also where the reply has no packet.
    pub fn answer(&mut self, zxid: u64, reply: &WireReply) -> Result<(), NoMemory>
        requires { 0 < length self.old.queue }
        ensures ok { OnOk result (self.new ≡ answered zxid reply.now self.old) }
        ensures err { OnErr result (self.new ≡ self.old) }
    {
        let Some(front) = self.queue.front() else {
            return Err(NoMemory);
        };
        let packet = write_reply_packet(self.alloc, front.request.xid, zxid, reply)?;
        self.answer_by(packet)
    }

    /// Answers the request at the front by the reply that it keeps. Changes nothing where it keeps none.
    pub fn answer_kept(&mut self, zxid: u64) -> Result<(), NoMemory>
        ensures ok { OnOk result (self.new ≡ answered_kept zxid self.old) }
        ensures err { OnErr result (self.new ≡ self.old) }
    {
        let Some(
            Waiting {
                request,
                reply: Some(reply),
                ..
            },
        ) = self.queue.front()
        else {
            return Ok(());
        };
        let packet = write_reply_packet(self.alloc, request.xid, zxid, reply)?;
        self.answer_by(packet)
    }

    /// Gives the first request whose mark has this number the reply that it will be answered. Where this request ends
    /// its session, all others go, so that it is at the front. Answers false, and changes nothing, exactly where the
    /// number is 0 or no request has it. Takes no memory.
    pub fn settle(&mut self, seq: u64, reply: WireReply) -> bool
        ensures found { result ≡ is_some (awaited seq self.old.queue) }
        ensures after { self.new ≡ settled seq reply self.old }
    {
        let at = find_number(&self.queue, seq);
        settle_at(&mut self.queue, at, reply)
    }

    /// Lets the packet of an event go out.
    pub fn event(&mut self, event: &Event) -> Result<(), NoMemory>
        ensures ok { OnOk result (self.new ≡ put (event_packet event.now) self.old) }
        ensures err { OnErr result (self.new ≡ self.old) }
    {
        let packet = write_event_packet(self.alloc, event)?;
        self.put(packet.as_slice())
    }

    /// Lets a packet go out that was written already, as that of an event which many connections hear of, or the
    /// answer to a word.
    pub fn put(&mut self, packet: &[u8]) -> Result<(), NoMemory>
        ensures ok { OnOk result (self.new ≡ put packet.now self.old) }
        ensures err { OnErr result (self.new ≡ self.old) }
    {
        put_packet(&mut self.outbox, packet)
    }

    /// Takes the last packet back that is to go out, if there is one: so a `put` is undone. Takes no memory.
    pub fn unput(&mut self)
        ensures { self.new ≡ taken_back self.old }
    {
        self.outbox.pop_back();
    }

    /// Answers the connect request: its packet goes out, and the connection is live with this epoch and the next number
    /// 1; where the session is 0 it was refused, and the connection is closing.
    pub fn connect(&mut self, reply: &ConnectReply, epoch: u64) -> Result<(), NoMemory>
        ensures ok { OnOk result (self.new ≡ opened reply.now epoch self.old) }
        ensures err { OnErr result (self.new ≡ self.old) }
    {
        let packet = write_connect_packet(self.alloc, reply)?;
        self.put(packet.as_slice())?;
        if reply.session == 0 {
            self.close(false);
        } else {
            self.serve(reply.session, epoch);
        }
        Ok(())
    }

    /// Answers the connect request, and reads what was kept meanwhile: `connect` and then `feed` of no bytes, as one call,
    /// since a live connection of which nothing was read can't go back. Without memory it waits for its answer as before.
    pub fn welcome(&mut self, reply: &ConnectReply, epoch: u64) -> Result<Fed, NoMemory>
        requires { 0 < reply.now.session }
        ensures ok { IfOk result (λ f. fed (opened reply.now epoch self.old) [] ≡ (self.new, f)) }
        ensures err { OnErr result (self.new ≡ self.old) }
    {
        let before = self.phase;
        self.connect(reply, epoch)?;
        match self.feed(&[]) {
            Ok(fed) => Ok(fed),
            Err(none) => {
                self.turn_back(before);
                Err(none)
            }
        }
    }

    // Takes the last packet back, and is in this phase again.
    fn turn_back(&mut self, phase: Phase)
        ensures { self.new ≡ taken_back (record self.old { phase = phase }) }
    {
        self.phase = phase;
        self.unput();
    }

    /// What a new connection begins with, as a copy: `begin_again` takes a `feed` back with it.
    pub fn beginning(&self) -> Result<Beginning, NoMemory>
        ensures { IfOk result (λ b. b ≡ (self.now.kept, self.now.place)) }
    {
        Ok(Beginning {
            kept: Vec::from_slice(self.alloc, &self.kept)?,
            place: self.place,
        })
    }

    /// The connection is new again, and begins with this. Takes no memory.
    pub fn begin_again(&mut self, beginning: Beginning)
        ensures { self.new ≡ begun_again beginning self.old }
    {
        let Beginning { kept, place } = beginning;
        self.phase = Phase::Fresh;
        self.kept = kept;
        self.place = place;
    }

    /// Makes the connection live, with this session and epoch and the next number 1: what `connect` does beside putting
    /// the packet. Takes no memory.
    pub fn serve(&mut self, session: u64, epoch: u64)
        ensures { self.new ≡ serving session epoch self.old }
    {
        self.phase = Phase::Live {
            session,
            epoch,
            next: 1,
        };
    }

    /// Where the connection stands.
    pub fn phase(&self) -> Phase
        ensures { result ≡ self.now.phase }
    {
        self.phase
    }

    /// The session, its epoch and the number of its next write; None exactly where the connection isn't live.
    pub fn live(&self) -> Option<(u64, u64, u64)>
        ensures { option_map (λ l. (l.0, (l.1, l.2))) result ≡ live_as self.now.phase }
    {
        match self.phase {
            Phase::Live {
                session,
                epoch,
                next,
            } => Some((session, epoch, next)),
            _ => None,
        }
    }

    /// Drops what waits and what was kept; what is to go out stays. Takes no memory.
    pub fn close(&mut self, lost: bool)
        ensures { self.new ≡ closed lost self.old }
    {
        self.phase = Phase::Closing { lost };
        self.kept = Vec::new(self.alloc);
        self.queue = VecDeque::new(self.alloc);
    }

    /// Whether a packet is to go out.
    pub fn has_packets(&self) -> bool
        ensures { result ≡ nat_lt 0 (length self.now.outbox) }
    {
        0 < self.outbox.len()
    }

    /// Takes all that is to go out, with its memory. Takes none.
    pub fn drain(&mut self) -> OutPiece
        ensures piece { result ≡ out_piece self.old }
        ensures after { self.new ≡ drained self.old }
    {
        let full = std::mem::replace(&mut self.outbox, Region::new(self.alloc));
        OutPiece {
            bytes: Bytes::from_vec(full.into_bytes()),
            over: self.phase.is_over(),
            lost: self.phase.is_lost(),
        }
    }

    // A piece of a new connection.
    fn feed_fresh(&mut self, piece: &[u8]) -> Result<Fed, NoMemory>
        requires phase { self.old.phase ≡ phases.Fresh }
        requires fits { self.old.place + length self.old.kept + length piece.now ≤ last_number }
        ensures ok { IfOk result (λ f. fed self.old piece.now ≡ (self.new, f)) }
        ensures err { OnErr result (self.new ≡ self.old) }
    {
        let had = self.kept.len();
        match begin_with(&mut self.kept, self.alloc, piece) {
            Ok(first) => self.take_first(had, first),
            Err(none) => Err(none),
        }
    }

    // What the bytes that are kept begin with. Without memory only the first of them stay.
    fn take_first(&mut self, had: usize, first: First) -> Result<Fed, NoMemory>
        requires { LiesIn self.old.kept first }
        ensures ok { IfOk result (λ f. fed_first self.old first ≡ (self.new, f)) }
        ensures err { OnErr result (self.new ≡ record self.old { kept = take had self.old.kept }) }
    {
        match first {
            First::Part => Ok(read_end(self.alloc, FedEnd::Ok)),
            First::Word(word) => {
                self.kept = Vec::new(self.alloc);
                Ok(read_end(self.alloc, FedEnd::Word(word)))
            }
            First::Wrong => {
                self.kept = Vec::new(self.alloc);
                Ok(read_end(self.alloc, FedEnd::Bad { at: self.place }))
            }
            First::Connect(request, n) => self.begin(had, request, n),
        }
    }

    // The connect request, whose frame has so many bytes.
    fn begin(&mut self, had: usize, request: ConnectRequest, n: usize) -> Result<Fed, NoMemory>
        requires { n ≤ length self.old.kept }
        ensures ok { IfOk result (λ f. fed_first self.old (firsts.Connect request n) ≡ (self.new, f)) }
        ensures err { OnErr result (self.new ≡ record self.old { kept = take had self.old.kept }) }
    {
        if keep_rest(&mut self.kept, self.alloc, n, false).is_err() {
            drop(request);
            self.kept.truncate(had);
            return Err(NoMemory);
        }
        self.place += n as u64;
        self.phase = Phase::Connecting {
            read_only: request.read_only.is_some(),
        };
        Ok(read_connect(self.alloc, request))
    }

    // A piece of a connecting connection.
    fn keep(&mut self, piece: &[u8]) -> Result<Fed, NoMemory>
        requires fits { self.old.place + length self.old.kept + length piece.now ≤ last_number }
        ensures ok { IfOk result (λ f. f ≡ nothing) }
        ensures kept { OnOk result (self.new ≡ with_piece self.old piece.now) }
        ensures err { OnErr result (self.new ≡ self.old) }
    {
        self.kept.extend_from_slice(piece)?;
        Ok(read_end(self.alloc, FedEnd::Ok))
    }

    // A piece of a live connection.
    fn feed_live(&mut self, piece: &[u8]) -> Result<Fed, NoMemory>
        requires phase { IsLive self.old.phase }
        requires fits { self.old.place + length self.old.kept + length piece.now ≤ last_number }
        ensures ok { IfOk result (λ f. fed self.old piece.now ≡ (self.new, f)) }
        ensures err { OnErr result (self.new ≡ self.old) }
    {
        let found = take_piece(&mut self.kept, self.alloc, piece)?;
        self.place += found.used as u64;
        Ok(read_requests(found, self.place))
    }

    // Lets the packet go out that answers the front, which leaves.
    fn answer_by(&mut self, packet: Bytes) -> Result<(), NoMemory>
        requires { 0 < length self.old.queue }
        ensures ok { OnOk result (self.new ≡ record self.old { queue = drop 1 self.old.queue; outbox = self.old.outbox ++ packet ∷ [] }) }
        ensures err { OnErr result (self.new ≡ self.old) }
    {
        put_packet(&mut self.outbox, packet.as_slice())?;
        drop(self.queue.pop_front());
        Ok(())
    }
}
