//! An entry is applied: what becomes of the parts of a node.

ghost use Rattle.std.specs.Prelude.{◌≡◌, ◌-◌, ◌∷◌, ◌<◌, ◌^◌, ℕ, List, length, true, IfOk, OnErr};
ghost use Rattle.std.specs.FinMap as map;
ghost use Rattle.kp_model.specs.LogEntry.{LogEntry};
ghost use Rattle.kp_model.specs.declared.reply.Event.{Event};
ghost use Rattle.kp_seats.specs.Walked.{SameBeside};
ghost use Rattle.kp_watch.specs.Watching.{shown, somes, fired as fired_by};
ghost use Rattle.kp_step.specs.Step.{swept};
ghost use Rattle.kp_node.specs.Applied.{waits_for as waits_so, SettlesSome, Finishes, MayFinish, IsPrepared, IsApplied};
ghost use Rattle.kp_node.specs.Changing.{ready_among, lost_among, AreKeptBut};
ghost use Rattle.kp_node.specs.Forgetting.{ended_by, forgotten};
ghost use Rattle.kp_node.specs.Holding.{AreKept, served_at};
ghost use Rattle.kp_node.specs.Indexing.{IsServedBut, SameBesideIndex};
ghost use Rattle.kp_node.specs.Informing.{IsAnswerIn, AreInformed};
ghost use Rattle.kp_node.specs.Meaning.{IsIndexed};
ghost use Rattle.kp_node.specs.Resting.{IsResting};

use crate::changing::{count_lost, keep_ready, sweep};
use crate::ending::settle_at;
use crate::forgetting::forget_ended;
use crate::guests::{Guest, let_in, seat_guest};
use crate::indexing::tidy;
use crate::informing::inform;
use crate::joining::Ground;
use crate::prospects::{Among, Prospect, foresee_entry};
use crate::serving::{Handed, none_handed};
use kp_expiry::Expiry;
use kp_model::{Body, Committed, Entry, Items, NoMemory};
use kp_raft::Raft;
use kp_seats::Seats;
use kp_snapshot::Image;
use kp_step::Seat;
use kp_storage::Storage;
use kp_watch::{Fired, Watches};
use kp_wire::WireReply;
use std::alloc::Global;

/// What comes of an entry.
#[derive(Drop)]
pub(crate) struct Applied {
    /// Its index.
    pub(crate) index: u64,

    /// What its guest handed in.
    pub(crate) handed: Handed,

    /// The connections, ascending, for which something is ready now and nothing was before.
    pub(crate) ready: Items<u64>,

    /// How many connections were given up.
    pub(crate) lost: u32,
}

/// What is done before an entry is applied, and may fail.
#[derive(Drop)]
pub(crate) struct Prepared {
    pub(crate) prospect: Prospect,
    pub(crate) guest: Option<Guest>,
}

/// What follows of connections that changed.
#[derive(Drop)]
pub(crate) struct Followed {
    pub(crate) ready: Items<u64>,
    pub(crate) lost: u32,
}

// All that may fail. After an error nothing has changed.
fn prepare(
    alloc: Global,
    ground: Ground,
    storage: &Storage,
    entry: &Entry,
    next: &Committed,
    seats: &mut Seats<Seat>,
    watches: &Watches,
    expiry: &mut Expiry,
) -> Result<Prepared, NoMemory>
    requires { (q : ℕ) → map.get seats.old.sessions q ≡ served_at (map.get seats.old.seats q) }
    ensures ok { IfOk result (λ a. IsPrepared ground storage.now.state.sessions seats.old watches.now entry.now.body next.now.reply next.now.events expiry.old a seats.new expiry.new) }
    ensures err { OnErr result ((seats.new ≡ seats.old) × (expiry.new ≡ expiry.old)) }
{
    let prospect = foresee_entry(
        alloc,
        ground.me,
        ground.boot,
        storage,
        seats,
        watches,
        &entry.body,
        &next.reply,
        next.events.as_slice(),
    )?;
    match let_in(
        alloc,
        seats,
        expiry,
        ground.now,
        prospect.guest,
        &prospect.welcome,
    ) {
        Ok(guest) => Ok(Prepared { prospect, guest }),
        Err(none) => {
            drop(prospect);
            Err(none)
        }
    }
}

// The events of an entry go out, the connection of its session learns what it means, and a session that it ends is
// forgotten.
fn tell_entry(
    ground: Ground,
    entry: &Entry,
    next: &Committed,
    seats: &mut Seats<Seat>,
    watches: &mut Watches,
    expiry: &mut Expiry,
    fired: &[Fired],
    answer: Option<WireReply>,
)
    requires indexed { IsIndexed seats.old }
    requires answer { IsAnswerIn entry.now.body next.now.reply answer seats.old.seats }
    requires fired { (pairs : List (ℕ × Event)) × (shown next.now.events fired.now ≡ somes pairs) }
    ensures informed { (pairs : List (ℕ × Event)) → shown next.now.events fired.now ≡ somes pairs → AreInformed ground.me ground.boot next.now.index entry.now.body next.now.reply pairs seats.old.seats seats.new.seats }
    ensures indexed { IsIndexed seats.new }
    ensures beside { SameBeside seats.old seats.new }
    ensures watches { watches.new ≡ (fired_by watches.old next.now.events).left }
    ensures heard { expiry.new ≡ forgotten (ended_by entry.now.body next.now.reply) expiry.old }
{
    inform(
        seats,
        ground.me,
        ground.boot,
        next.index,
        &entry.body,
        &next.reply,
        answer,
        next.events.as_slice(),
        fired,
    );
    watches.take_all(next.events.as_slice());
    forget_ended(expiry, &entry.body, &next.reply);
}

// The connection whose write may be answered.
fn waits_for(body: &Body, server: Option<u64>) -> Option<u64>
    ensures { result ≡ waits_so body.now server }
{
    match body {
        Body::Write { .. } => server,
        _ => None,
    }
}

// What waits at the connection of this number is answered on the committed state, if there is one.
fn settle_some(
    alloc: Global,
    storage: &Storage,
    watches: &mut Watches,
    seats: &mut Seats<Seat>,
    number: Option<u64>,
)
    ensures { SettlesSome storage.now.state watches.old watches.new number seats.old seats.new }
{
    if let Some(found) = number {
        let zxid = storage.applied();
        settle_at(alloc, &storage.committed(), zxid, watches, found, seats);
    }
}

// Behind the entry: its guest is served and back at its place, or its write is answered.
fn finish_entry(
    alloc: Global,
    ground: Ground,
    raft: &mut Raft<Image>,
    storage: &mut Storage,
    watches: &mut Watches,
    seats: &mut Seats<Seat>,
    guest: Option<Guest>,
    waits: Option<u64>,
) -> Handed
    requires { MayFinish guest seats.old }
    ensures { Finishes ground guest waits raft.old storage.old watches.old seats.old raft.new storage.new watches.new seats.new result }
{
    match guest {
        None => {
            settle_some(alloc, storage, watches, seats, waits);
            none_handed(alloc)
        }
        Some(found) => seat_guest(alloc, ground, raft, storage, watches, seats, found),
    }
}

// What follows of the connections that an entry may have changed: those that serve no session any more leave the index,
// and those that were given up have no watches.
fn follow(seats: &mut Seats<Seat>, watches: &mut Watches, among: Among) -> Followed
    requires indexed { IsIndexed seats.old }
    requires served { IsServedBut among.conns.items seats.old }
    requires kept { AreKeptBut among.conns.items seats.old.seats watches.old }
    requires few { length among.conns.items < 2 ^ 32 }
    ensures served { (q : ℕ) → map.get seats.new.sessions q ≡ served_at (map.get seats.new.seats q) }
    ensures beside { SameBesideIndex seats.old seats.new }
    ensures watches { watches.new ≡ swept seats.new.seats watches.old }
    ensures ready { result.ready ≡ ready_among seats.new.seats among.idle.items }
    ensures lost { result.lost ≡ length (lost_among seats.new.seats among.conns.items) - among.lost }
{
    let Among {
        conns,
        mut idle,
        lost,
    } = among;
    tidy(seats, &conns);
    sweep(seats, watches, &conns);
    keep_ready(seats, &mut idle);
    let lost = count_lost(seats, &conns).saturating_sub(lost) as u32;
    drop(conns);
    Followed {
        ready: Items::from_vec(idle),
        lost,
    }
}

/// Applies the next entry, which is there. After an error nothing has changed.
pub(crate) fn apply_next(
    alloc: Global,
    ground: Ground,
    raft: &mut Raft<Image>,
    storage: &mut Storage,
    seats: &mut Seats<Seat>,
    watches: &mut Watches,
    expiry: &mut Expiry,
) -> Result<Applied, NoMemory>
    requires rest { (q : ℕ) → IsResting (map.get seats.old.seats q) }
    requires kept { AreKept seats.old.seats watches.old }
    requires served { (q : ℕ) → map.get seats.old.sessions q ≡ served_at (map.get seats.old.seats q) }
    ensures ok { IfOk result (λ a. (e : LogEntry) (es : List LogEntry) → storage.old.unapplied ≡ e ∷ es → IsApplied ground e es raft.old storage.old seats.old watches.old expiry.old a raft.new storage.new seats.new watches.new expiry.new) }
    ensures raft { OnErr result (raft.new ≡ raft.old) }
    ensures storage { OnErr result (storage.new ≡ storage.old) }
    ensures seats { OnErr result (seats.new ≡ seats.old) }
    ensures watches { OnErr result (watches.new ≡ watches.old) }
    ensures expiry { OnErr result (expiry.new ≡ expiry.old) }
{
    let _last = storage.last();
    let Some(entry) = storage.next_entry() else {
        return Err(NoMemory);
    };
    let Some(next) = storage.upcoming() else {
        return Err(NoMemory);
    };
    let Prepared { prospect, guest } = prepare(
        alloc, ground, storage, entry, next, seats, watches, expiry,
    )?;
    let Prospect {
        fired,
        server,
        among,
        answer,
        ..
    } = prospect;
    tell_entry(ground, entry, next, seats, watches, expiry, &fired, answer);
    drop(fired);
    let waits = waits_for(&entry.body, server);
    let index = next.index;
    drop(storage.commit());
    let handed = finish_entry(alloc, ground, raft, storage, watches, seats, guest, waits);
    let Followed { ready, lost } = follow(seats, watches, among);
    Ok(Applied {
        index,
        handed,
        ready,
        lost,
    })
}
