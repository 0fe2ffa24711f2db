ghost use Rattle.std.specs.Prelude.{◌≡◌, ◌<◌, ◌≤◌, ◌+◌, ◌^◌, ◌&&◌, IfOk, IsTrue, OnOk};
ghost use Rattle.std.specs.Option.{option_copied};
ghost use Rattle.kp_model.specs.Limits.{last_number};
ghost use Rattle.std.specs.FinMap as map;
ghost use Rattle.kp_model.specs.Grammar.{is_body, has_numbers, is_number};
ghost use Rattle.kp_model.specs.Store.{last as last_of, latest, with_entry, kept};
ghost use Rattle.kp_model.specs.declared.entry.Body.TheVariants as body;
ghost use Rattle.kp_text.specs.Spelling.{is_line};
ghost use Rattle.kp_top.specs.Transcript.{blank, turn as turn_of, entered, committed, cut as cut_of, write_of, epoch_of, next_seq_of, origin_of as origin_at};
ghost use Rattle.kp_top.specs.LineCommands.{cmd_of as asks};
ghost use Rattle.kp_top.specs.Paced.{IsPaced};
ghost use Rattle.kp_top.specs.Loading.{IsWithin, counted, with_entry_kept};
ghost use Rattle.kp_load.specs.Load.{after, is_load_line, IsLoadLine};
ghost use Rattle.kp_text.specs.declared.line.StoreLine.TheVariants as line;

use crate::line_commands::cmd_of;
use crate::print::{cut_text, done_text, pre_text, time_text};
use crate::tally::Tally;
use kp_load::LoadLines;
use kp_look::{acl, children, peek, see, text_of, who};
use kp_model::{Body, Cmd, Entry, NoMemory, Origin};
use kp_storage::Storage;
use kp_text::{Command, StoreLine};
use std::alloc::Global;
use std::marker::Model;

/// A store at work on the lines of the store language.
#[derive(Drop)]
pub struct Work {
    alloc: Global,
    store: Storage,
    // the time that the next entries get, in milliseconds
    time: u64,
}

impl Model for Work {
    ghost use Rattle.std.specs.Prelude.{IsTrue};
    ghost use Rattle.kp_model.specs.Grammar.{is_number};
    ghost use Rattle.kp_top.specs.Paced.{IsPaced};
    ghost use Rattle.kp_top.specs.Transcript.{Work, work_code};

    ghost Value = { Work };

    ghost coded = { work_code };

    ghost view = { λ w. record { store = w.store; time = w.time } };

    ghost invariant = { λ w. IsTrue (is_number w.time) × IsPaced w.store.state };
}

/// The epoch of a session and its next number in the uncommitted state, or 0 and 0 where there is no such session.
#[tactic(auto, using(crate::proofs::Paces::paced_latest))]
fn numbers_of(store: &Storage, session: u64) -> (u64, u64)
    requires room { last_of store.now < last_number }
    requires paced { IsPaced store.now.state }
    ensures epoch { result.0 ≡ epoch_of (map.get (latest store.now).sessions session) }
    ensures seq { result.1 ≡ next_seq_of (map.get (latest store.now).sessions session) }
    ensures small { (result.0 ≤ last_number) × (result.1 ≤ last_number) }
{
    match store.latest_session(session) {
        None => (0, 0),
        Some(found) => (found.epoch, found.seq + 1),
    }
}

/// A write of a session, with its epoch and its next number.
#[tactic(auto, unfolding(crate::specs::Transcript::write_of))]
fn write_body(store: &Storage, session: u64, cmd: Cmd) -> Body
    requires room { last_of store.now < last_number }
    requires paced { IsPaced store.now.state }
    requires session { IsTrue (is_number session) }
    ensures body { result ≡ write_of store.now session cmd }
    ensures numbers { IsTrue (is_body result) }
{
    let (epoch, seq) = numbers_of(store, session);
    Body::Write {
        session,
        epoch,
        seq,
        cmd,
    }
}

/// Adds an entry.
fn add(store: &mut Storage, time: u64, body: Body) -> Result<(), NoMemory>
    requires room { last_of store.old < last_number }
    requires numbers { IsTrue (has_numbers 0 time body) }
    ensures entry { OnOk result (store.new ≡ with_entry store.old (record { term = 0; time = time; body = body })) }
    ensures state { store.new.state ≡ store.old.state }
{
    let entry = Entry::new(0, time, body)?;
    let added = store.preprocess(&entry);
    drop(entry);
    added
}

/// Adds an entry and answers its text.
#[tactic(auto, unfolding(crate::specs::Transcript::entered))]
fn enter(alloc: Global, store: &mut Storage, time: u64, body: Body) -> Result<Vec<u8>, NoMemory>
    requires room { last_of store.old < last_number }
    requires numbers { IsTrue (has_numbers 0 time body) }
    ensures turn { IfOk result (λ v. record { text = v.items; work = record { store = store.new; time = time } } ≡ entered (record { store = store.old; time = time }) body) }
    ensures state { store.new.state ≡ store.old.state }
{
    add(store, time, body)?;
    let last = store.last();
    pre_text(alloc, last, store.kept(last))
}

/// Adds an entry and counts it by its kept reply.
#[tactic(auto, unfolding(crate::specs::Transcript::entered))]
fn count_entry(store: &mut Storage, time: u64, body: Body, tally: Tally) -> Result<Tally, NoMemory>
    requires room { last_of store.old < last_number }
    requires numbers { IsTrue (has_numbers 0 time body) }
    requires made { tally.made < 2 ^ 63 }
    requires good { tally.good < 2 ^ 63 }
    requires bad { tally.bad < 2 ^ 63 }
    ensures work { IfOk result (λ t. record { store = store.new; time = time } ≡ (entered (record { store = store.old; time = time }) body).work) }
    ensures tally { IfOk result (λ t. t ≡ with_entry_kept (kept store.new (last_of store.new)) tally) }
    ensures state { store.new.state ≡ store.old.state }
{
    add(store, time, body)?;
    let last = store.last();
    Ok(tally.with_entry(store.kept(last)))
}

/// Adds a command of a session, with its epoch and its next number, and answers its text.
fn write(
    alloc: Global,
    store: &mut Storage,
    time: u64,
    session: u64,
    command: Command,
) -> Result<Vec<u8>, NoMemory>
    requires room { last_of store.old < last_number }
    requires paced { IsPaced store.old.state }
    requires time { IsTrue (is_number time) }
    requires session { IsTrue (is_number session) }
    ensures turn { IfOk result (λ v. record { text = v.items; work = record { store = store.new; time = time } } ≡ entered (record { store = store.old; time = time }) (write_of store.old session (asks command))) }
    ensures state { store.new.state ≡ store.old.state }
{
    let cmd = cmd_of(alloc, command)?;
    let body = write_body(store, session, cmd);
    enter(alloc, store, time, body)
}

/// Adds a command of a session with this epoch and number, and answers its text.
fn write_raw(
    alloc: Global,
    store: &mut Storage,
    time: u64,
    session: u64,
    epoch: u64,
    seq: u64,
    command: Command,
) -> Result<Vec<u8>, NoMemory>
    requires room { last_of store.old < last_number }
    requires time { IsTrue (is_number time) }
    requires numbers { IsTrue (is_number session && (is_number epoch && is_number seq)) }
    ensures turn { IfOk result (λ v. record { text = v.items; work = record { store = store.new; time = time } } ≡ entered (record { store = store.old; time = time }) (body.Write session epoch seq (asks command))) }
    ensures state { store.new.state ≡ store.old.state }
{
    let cmd = cmd_of(alloc, command)?;
    let body = Body::Write {
        session,
        epoch,
        seq,
        cmd,
    };
    enter(alloc, store, time, body)
}

/// Applies the first unapplied entry and answers the text.
#[tactic(auto, unfolding(crate::specs::Transcript::committed), using(crate::proofs::Paces::paced_commit))]
fn commit(alloc: Global, store: &mut Storage, time: u64) -> Result<Vec<u8>, NoMemory>
    requires paced { IsPaced store.old.state }
    ensures turn { IfOk result (λ v. record { text = v.items; work = record { store = store.new; time = time } } ≡ committed (record { store = store.old; time = time })) }
    ensures paced { IsPaced store.new.state }
{
    let done = store.commit();
    done_text(alloc, done.as_ref())
}

/// Truncates and answers the text.
#[tactic(auto, unfolding(crate::specs::Transcript::cut))]
fn truncate(alloc: Global, store: &mut Storage, time: u64, last: u64) -> Result<Vec<u8>, NoMemory>
    ensures turn { IfOk result (λ v. record { text = v.items; work = record { store = store.new; time = time } } ≡ cut_of (record { store = store.old; time = time }) last) }
    ensures state { store.new.state ≡ store.old.state }
{
    if store.applied() <= last && last <= store.last() {
        store.truncate(last);
        return cut_text(alloc, last);
    }
    text_of(alloc, "cut refused")
}

/// Applies the first unapplied entry, where there is one, and counts it.
#[tactic(auto, unfolding(crate::specs::Transcript::committed, kp_model::specs::Store::commit_answer, kp_model::specs::Store::commit_leaves, crate::specs::Loading::counted), using(crate::proofs::Paces::paced_commit))]
fn count_commit(store: &mut Storage, time: u64, tally: Tally) -> Tally
    requires paced { IsPaced store.old.state }
    requires small { tally.done < 2 ^ 63 }
    ensures work { record { store = store.new; time = time } ≡ (committed (record { store = store.old; time = time })).work }
    ensures tally { result ≡ counted line.Commit store.old store.new tally }
    ensures paced { IsPaced store.new.state }
{
    let done = store.commit();
    let took = done.is_some();
    drop(done);
    Tally {
        done: tally.done + took as u64,
        ..tally
    }
}

/// Truncates where the index is from the applied one to the last, and counts the entries that go.
#[tactic(auto, unfolding(crate::specs::Transcript::cut, crate::specs::Loading::counted))]
fn count_cut(store: &mut Storage, time: u64, last: u64, tally: Tally) -> Tally
    requires small { tally.cut + last_of store.old < 2 ^ 63 }
    ensures work { record { store = store.new; time = time } ≡ (cut_of (record { store = store.old; time = time }) last).work }
    ensures tally { result ≡ counted (line.Truncate last) store.old store.new tally }
    ensures state { store.new.state ≡ store.old.state }
{
    let before = store.last();
    if store.applied() <= last && last <= before {
        store.truncate(last);
    }
    Tally {
        cut: tally.cut + (before - store.last()),
        ..tally
    }
}

/// The origin of a session that the n-th line opens or takes over.
fn origin_of(n: u64) -> Origin
    ensures { result ≡ origin_at n }
{
    Origin {
        node: 0,
        boot: 0,
        conn: n,
    }
}

impl Work {
    /// The empty store at time 0.
    pub fn new(alloc: Global) -> Result<Work, NoMemory>
        ensures { IfOk result (λ w. w ≡ blank) }
    {
        Ok(Work {
            alloc,
            store: Storage::new(alloc)?,
            time: 0,
        })
    }

    /// Does the n-th line of a load, and counts what comes of it. After an `Err` no further line is taken.
    #[tactic(auto, unfolding(crate::specs::Transcript::turn, crate::specs::Loading::counted))]
    pub fn count(&mut self, n: u64, line: StoreLine, tally: Tally) -> Result<Tally, NoMemory>
        requires room { last_of self.old.store < last_number }
        requires number { n ≤ last_number }
        requires line { IsTrue (is_load_line line) }
        requires small { IsWithin last_number (last_of self.old.store) tally }
        ensures work { IfOk result (λ _. self.new ≡ (turn_of self.old n line).work) }
        ensures tally { IfOk result (λ t. t ≡ counted line self.old.store self.new.store tally) }
    {
        let (alloc, time) = (self.alloc, self.time);
        let store = &mut self.store;
        match line {
            StoreLine::Open { timeout, passwd } => {
                let body = Body::OpenSession {
                    timeout,
                    passwd,
                    origin: origin_of(n),
                };
                count_entry(store, time, body, tally)
            }
            StoreLine::Write { session, command } => {
                let cmd = cmd_of(alloc, command)?;
                let body = write_body(store, session, cmd);
                count_entry(store, time, body, tally)
            }
            StoreLine::Commit => Ok(count_commit(store, time, tally)),
            StoreLine::Truncate { last } => Ok(count_cut(store, time, last, tally)),
            other => {
                drop(other);
                Ok(tally)
            }
        }
    }

    /// How many nodes the committed tree has, with the root.
    pub fn node_count(&self) -> u64
        ensures { result ≡ map.len self.now.store.state.nodes }
    {
        self.store.node_count()
    }

    /// The next line of a load for this store.
    pub fn next_of(&self, lines: &mut LoadLines) -> Result<Option<StoreLine>, NoMemory>
        ensures line { IfOk result (λ l. l ≡ (after lines.old self.now.store.state.applied (last_of self.now.store)).line) }
        ensures rest { IfOk result (λ _. lines.new ≡ (after lines.old self.now.store.state.applied (last_of self.now.store)).rest) }
        ensures grammar { IfOk result (λ l. IsLoadLine l) }
    {
        lines.next(self.store.applied(), self.store.last())
    }

    /// Does the n-th line and answers its text, without a line feed. After an `Err` no further line is taken.
    #[tactic(auto, unfolding(crate::specs::Transcript::turn))]
    pub fn turn(&mut self, n: u64, line: StoreLine) -> Result<Vec<u8>, NoMemory>
        requires room { last_of self.old.store < last_number }
        requires number { n ≤ last_number }
        requires line { IsTrue (is_line line) }
        ensures { IfOk result (λ v. record { text = v.items; work = self.new } ≡ turn_of self.old n line) }
    {
        let (alloc, time) = (self.alloc, self.time);
        let store = &mut self.store;
        match line {
            StoreLine::Time { time } => {
                self.time = time;
                time_text(alloc, time)
            }
            StoreLine::Open { timeout, passwd } => {
                let body = Body::OpenSession {
                    timeout,
                    passwd,
                    origin: origin_of(n),
                };
                enter(alloc, store, time, body)
            }
            StoreLine::Attach { session, passwd } => {
                let body = Body::Attach {
                    session,
                    passwd,
                    origin: origin_of(n),
                };
                enter(alloc, store, time, body)
            }
            StoreLine::Expire { session } => enter(alloc, store, time, Body::Expire { session }),
            StoreLine::Noop => enter(alloc, store, time, Body::Noop),
            StoreLine::Write { session, command } => write(alloc, store, time, session, command),
            StoreLine::Raw {
                session,
                epoch,
                seq,
                command,
            } => write_raw(alloc, store, time, session, epoch, seq, command),
            StoreLine::Commit => commit(alloc, store, time),
            StoreLine::Truncate { last } => truncate(alloc, store, time, last),
            StoreLine::Peek { path } => peek(alloc, store, &path),
            StoreLine::See { path } => see(alloc, store, &path),
            StoreLine::Kids { path } => children(alloc, "kids", &store.latest(), &path),
            StoreLine::Ls { path } => children(alloc, "ls", &store.committed(), &path),
            StoreLine::Acl { path } => acl(alloc, store, &path),
            StoreLine::Who { session } => who(alloc, store, session),
        }
    }
}
