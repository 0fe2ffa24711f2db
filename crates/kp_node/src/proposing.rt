//! Bodies are handed in to a leader, and proposed to Raft.

ghost use Rattle.std.specs.Prelude.{◌≡◌, ◌==◌, ◌&&◌, ◌^◌, ◌<◌, ◌≤◌, ◌∷◌, ◌++◌, [], length, List, None, IsTrue, IfOk, OnOk, OnErr};
ghost use Rattle.std.specs.List.{list_all};
ghost use Rattle.kp_model.specs.declared.entry.Body.{Body};
ghost use Rattle.kp_model.specs.LogEntry.{LogEntry};
ghost use Rattle.kp_model.specs.Grammar.{is_body, is_origin, has_numbers as are_numbers};
ghost use Rattle.kp_model.specs.Store.{Store, last as last_of, with_entry, truncated};
ghost use Rattle.kp_raft.specs.declared.mail.Mail.TheVariants as mail;
ghost use Rattle.kp_raft.specs.Numbers.{is_peer as is_other};
ghost use Rattle.kp_raft.specs.Parts.{is_leader};
ghost use Rattle.kp_snapshot.specs.Snapshots.{Snapshot};
ghost use Rattle.kp_step.specs.Choices.{Choices};
ghost use Rattle.kp_step.specs.Handing.{Desk, proposed, proposed_all};
ghost use Rattle.kp_step.specs.Asking.{may_propose, taken_by};
ghost use Rattle.kp_node.specs.Parts.{node_of};
ghost use Rattle.kp_node.specs.Steps.{Reacts, Steps};
ghost use Rattle.kp_node.specs.Proposing.{AtDesk, Does, HandedIn, forward_step, Proposes, proposed_by, proposed_to, taken_of, wanted};

use crate::node::Node;
use crate::outcome::Outcome;
use kp_entry::Records;
use kp_event::Said;
use kp_model::limits::LAST_NUMBER;
use kp_model::{Body, Entry, Items, NoMemory, Origin, Role, would_take};
use kp_raft::{Raft, RaftEvent, RaftOut};
use kp_snapshot::Image;
use kp_storage::Storage;
use std::alloc::Global;

impl Node {
    // Those of the bodies that this member takes are proposed at this time, in milliseconds; their number is given beside
    // what Raft gave. After an error nothing has changed.
    pub(crate) fn propose(
        &mut self,
        now: u64,
        bodies: Vec<Body>,
    ) -> Result<(RaftOut<Image>, u32), NoMemory>
        requires { self.old.events < 2 ^ 62 }
        ensures ok { IfOk result (λ r. Reacts (proposed_by (node_of self.old) now bodies.items) None self.old r.0 self.new) }
        ensures count { IfOk result (λ r. r.1 ≡ length (taken_by (node_of self.old) now bodies.items)) }
        ensures err { OnErr result (self.new ≡ self.old) }
    {
        let _commit = self.raft.commit();
        let out = propose_taken(self.alloc, &mut self.raft, &mut self.storage, now, bodies)?;
        self.events += 1;
        let count = out.added;
        Ok((out, count))
    }

    // Whether this member takes the body of a message of this term from the member of this number: it leads in that term.
    pub(crate) fn may_propose(&self, term: u64, from: u8) -> bool
        ensures { (b : Body) → result ≡ may_propose {I = Snapshot} (node_of self.now) (mail.Forward term from b) term }
    {
        is_peer(&self.raft, from) && term <= LAST_NUMBER && leads_in(&self.raft, term)
    }

    // The body that another member sent to the leader is proposed at this time, in milliseconds. After an error nothing
    // has changed.
    pub(crate) fn forwarded(
        &mut self,
        now: u64,
        term: u64,
        from: u8,
        body: Body,
    ) -> Result<Outcome, NoMemory>
        requires { self.old.events < 2 ^ 62 }
        ensures ok { IfOk result (λ o. (ch : Choices) → Steps (forward_step ch (node_of self.old) now term from body) self.old self.new o) }
        ensures err { OnErr result (self.new ≡ self.old) }
    {
        let bodies = self.alone(body)?;
        let (out, _) = self.propose(now, bodies)?;
        Ok(self.behind(Said::Raft, out, None))
    }

    // A list of this body alone.
    fn alone(&self, body: Body) -> Result<Vec<Body>, NoMemory>
        ensures { IfOk result (λ bodies. bodies.items ≡ body ∷ []) }
    {
        let mut bodies = Vec::new(self.alloc);
        bodies.push(body)?;
        Ok(bodies)
    }
}

// A body is handed in to the leader of this term at this time, in milliseconds: it is taken where the log has room and it
// isn't too late behind those before it. One whose numbers are beyond their limits is answered want of memory, as one
// whose texts are too long. After an error nothing has changed.
pub(crate) fn hand_in(
    storage: &mut Storage,
    term: u64,
    now: u64,
    body: Body,
    bodies: &mut Vec<Body>,
) -> Result<(), NoMemory>
    ensures ok { OnOk result ((first : Store) (d : Desk) → AtDesk first term now storage.old bodies.old.items d → AtDesk first term now storage.new bodies.new.items (proposed term now d body)) }
    ensures err { OnErr result ((storage.new ≡ storage.old) × (bodies.new.items ≡ bodies.old.items)) }
{
    if !is_wanted(storage, &body) {
        drop(body);
        return Ok(());
    }
    add(storage, term, now, body, bodies)
}

// Whether a leader takes the body: the log has room, and it isn't too late.
fn is_wanted(storage: &Storage, body: &Body) -> bool
    ensures wanted { result ≡ wanted storage.now body.now }
    ensures room { IsTrue result → last_of storage.now < 2 ^ 62 }
{
    storage.last() < LAST_NUMBER && would_take(&storage.latest(), body)
}

// All of the bodies are handed in, one behind the other. After an error some of them are.
fn hand_in_all(
    storage: &mut Storage,
    term: u64,
    now: u64,
    bodies: Vec<Body>,
    taken: &mut Vec<Body>,
) -> Result<(), NoMemory>
    ensures ok { OnOk result ((first : Store) (d : Desk) → AtDesk first term now storage.old taken.old.items d → AtDesk first term now storage.new taken.new.items (proposed_all term now d bodies.items)) }
    ensures err { OnErr result ((first : Store) (d : Desk) → AtDesk first term now storage.old taken.old.items d → HandedIn first term now storage.new) }
{
    for body in bodies {
        hand_in(storage, term, now, body, taken)?;
    }
    Ok(())
}

// Whether the member leads.
pub(crate) fn leads(raft: &Raft<Image>) -> bool
    ensures { result ≡ is_leader raft.now.vars.role }
{
    matches!(raft.role(), Role::Leader)
}

// Whether the member leads in this term.
pub(crate) fn leads_in(raft: &Raft<Image>, term: u64) -> bool
    ensures { result ≡ (is_leader raft.now.vars.role && term == raft.now.held.term) }
{
    leads(raft) && term == raft.term()
}

// Whether this is the number of another member.
pub(crate) fn is_peer(raft: &Raft<Image>, node: u8) -> bool
    ensures { result ≡ is_other raft.now.members raft.now.node node }
{
    raft.match_of(node).is_some()
}

// Those of the bodies that this member takes, which are handed in. After an error some of them are.
fn gather(
    alloc: Global,
    raft: &Raft<Image>,
    storage: &mut Storage,
    now: u64,
    bodies: Vec<Body>,
) -> Result<Items<Body>, NoMemory>
    requires { last_of storage.old ≤ 2 ^ 62 }
    ensures taken { IfOk result (λ taken. taken ≡ taken_of raft.now storage.old now bodies.items) }
    ensures desk { IfOk result (λ taken. (d : Desk) × AtDesk storage.old raft.now.held.term now storage.new taken d) }
    ensures err { OnErr result (HandedIn storage.old raft.now.held.term now storage.new) }
{
    let mut taken = Vec::new(alloc);
    if !leads(raft) {
        drop(bodies);
        return Ok(Items::from_vec(taken));
    }
    match hand_in_all(storage, raft.term(), now, bodies, &mut taken) {
        Ok(()) => Ok(Items::from_vec(taken)),
        Err(none) => {
            drop(taken);
            Err(none)
        }
    }
}

// Those of the bodies that this member takes, which are handed in. After an error nothing has changed.
fn take_wanted(
    alloc: Global,
    raft: &Raft<Image>,
    storage: &mut Storage,
    now: u64,
    bodies: Vec<Body>,
) -> Result<Items<Body>, NoMemory>
    ensures taken { IfOk result (λ taken. taken ≡ taken_of raft.now storage.old now bodies.items) }
    ensures desk { IfOk result (λ taken. (d : Desk) × AtDesk storage.old raft.now.held.term now storage.new taken d) }
    ensures err { OnErr result (storage.new ≡ storage.old) }
{
    let last = storage.last();
    match gather(alloc, raft, storage, now, bodies) {
        Ok(taken) => Ok(taken),
        Err(none) => {
            take_in_back(storage, last);
            Err(none)
        }
    }
}

// Those of the bodies that this member takes are proposed. After an error nothing has changed.
pub(crate) fn propose_taken(
    alloc: Global,
    raft: &mut Raft<Image>,
    storage: &mut Storage,
    now: u64,
    bodies: Vec<Body>,
) -> Result<RaftOut<Image>, NoMemory>
    ensures ok { IfOk result (λ out. Proposes raft.old storage.old now bodies.items out raft.new storage.new) }
    ensures err { OnErr result ((raft.new ≡ raft.old) × (storage.new ≡ storage.old)) }
{
    let last = storage.last();
    let taken = take_wanted(alloc, raft, storage, now, bodies)?;
    match propose_all(alloc, raft, now, taken) {
        Ok(out) => Ok(out),
        Err(none) => {
            take_in_back(storage, last);
            Err(none)
        }
    }
}

// Adds an entry of this body to the storage, and the body to the others. After an error nothing has changed.
fn add(
    storage: &mut Storage,
    term: u64,
    now: u64,
    body: Body,
    bodies: &mut Vec<Body>,
) -> Result<(), NoMemory>
    requires { last_of storage.old < 2 ^ 62 }
    ensures ok { OnOk result (IsTrue (is_body body) × ((storage.new ≡ with_entry storage.old (record { term = term; time = now; body = body })) × (bodies.new.items ≡ bodies.old.items ++ body ∷ []))) }
    ensures err { OnErr result ((storage.new ≡ storage.old) × (bodies.new.items ≡ bodies.old.items)) }
{
    bodies.reserve(1)?;
    let entry = entry_of(term, now, body)?;
    match storage.preprocess(&entry) {
        Err(none) => {
            drop(entry);
            Err(none)
        }
        Ok(()) => {
            let Entry { body, .. } = entry;
            bodies.push_reserved(body);
            Ok(())
        }
    }
}

// The entry of this body.
fn entry_of(term: u64, now: u64, body: Body) -> Result<Entry, NoMemory>
    ensures numbers { OnOk result (IsTrue (is_body body)) }
    ensures entry { IfOk result (λ e. e ≡ record { term = term; time = now; body = body }) }
{
    if !has_numbers(term, now, &body) {
        drop(body);
        return Err(NoMemory);
    }
    Entry::new(term, now, body)
}

// Whether the numbers of an entry are within their limits.
fn has_numbers(term: u64, now: u64, body: &Body) -> bool
    ensures { result ≡ are_numbers term now body.now }
{
    term <= LAST_NUMBER && now <= LAST_NUMBER && is_within(body)
}

// Whether the numbers of a body are within their limits.
fn is_within(body: &Body) -> bool
    ensures { result ≡ is_body body.now }
{
    match body {
        Body::Noop => true,
        Body::OpenSession {
            timeout,
            origin,
            ..
        } => 10_000 <= *timeout && *timeout <= 100_000 && has_limits(origin),
        Body::Attach {
            session,
            origin,
            ..
        } => *session <= LAST_NUMBER && has_limits(origin),
        Body::Expire { session } => *session <= LAST_NUMBER,
        Body::Write {
            session,
            epoch,
            seq,
            ..
        } => *session <= LAST_NUMBER && *epoch <= LAST_NUMBER && *seq <= LAST_NUMBER,
    }
}

// Whether the numbers of an origin are within their limits.
fn has_limits(origin: &Origin) -> bool
    ensures { result ≡ is_origin origin.now }
{
    origin.boot <= LAST_NUMBER && origin.conn <= LAST_NUMBER
}

// Takes back what was handed in since the last entry had this index.
pub(crate) fn take_in_back(storage: &mut Storage, last: u64)
    requires from { storage.old.state.applied ≤ last }
    requires to { last ≤ last_of storage.old }
    ensures truncated { storage.new ≡ truncated storage.old last }
    ensures back { (first : Store) (es : List LogEntry) → storage.old ≡ record first { unapplied = first.unapplied ++ es } → last ≡ last_of first → storage.new ≡ first }
{
    storage.truncate(last);
}

// What was handed in is proposed to Raft at this time, in milliseconds, where there is any: Raft takes all of it, or
// nothing has changed.
pub(crate) fn propose_all(
    alloc: Global,
    raft: &mut Raft<Image>,
    now: u64,
    bodies: Items<Body>,
) -> Result<RaftOut<Image>, NoMemory>
    requires { IsTrue (list_all is_body bodies) }
    ensures ok { IfOk result (λ out. Does (proposed_to raft.old now bodies) raft.old out raft.new) }
    ensures err { OnErr result (raft.new ≡ raft.old) }
{
    if bodies.len() == 0 || !leads(raft) {
        drop(bodies);
        return Ok(nothing(alloc));
    }
    if now > LAST_NUMBER {
        drop(bodies);
        return Err(NoMemory);
    }
    raft.step(RaftEvent::Propose { time: now, bodies })
}

// What Raft gives where it does nothing.
fn nothing(alloc: Global) -> RaftOut<Image>
    ensures { result ≡ record { added = 0; truncated = None; image = None; records = []; mail = [] } }
{
    RaftOut {
        added: 0,
        truncated: None,
        image: None,
        records: Records::new(alloc),
        mail: Items::new(alloc),
    }
}
