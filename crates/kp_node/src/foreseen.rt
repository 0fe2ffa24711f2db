//! An event of Raft by which at most a no-op is appended, and what it may need.

ghost use Rattle.std.specs.Prelude.{◌≡◌, ◌+◌, ◌&&◌, Some, ◌^◌, ◌≤◌, ◌<◌, true, None, if◌then◌else◌, IfOk, OnOk, OnErr, IfSome};
ghost use Rattle.kp_model.specs.Store.{last as last_of, truncated};
ghost use Rattle.kp_raft.specs.Parts.{is_leader};
ghost use Rattle.kp_raft.specs.Steps.{image_of};
ghost use Rattle.kp_raft.specs.Members.{running_of, MayTake, Steps};
ghost use Rattle.kp_entry.specs.Log.{last_index};
ghost use Rattle.kp_raft.specs.declared.event.RaftEvent.TheVariants as asked;
ghost use Rattle.kp_raft.specs.Rules.{may_stand as may_stand_so};
ghost use Rattle.kp_node.specs.Foreseen.{reaction, becomes_leader, with_noops, IsForeseen, IsUsual, term_in, may_elect as may_elect_so, is_alone};

use kp_model::limits::LAST_NUMBER;
use kp_model::{Body, Entry, NoMemory, Role};
use kp_raft::{Mail, Raft, RaftEvent, RaftOut};
use kp_snapshot::Image;
use kp_storage::Storage;

/// What may come of an event.
#[derive(Clone, Copy)]
pub(crate) struct Forecast {
    // whether the term may rise
    pub(crate) may_rise: bool,
    // the term of which the member may become leader
    pub(crate) lead: Option<u64>,
}

/// What may come of it that the member heard of no leader for too long.
pub(crate) fn foresee_timeout(raft: &Raft<Image>) -> Forecast
    ensures { IsForeseen raft.now asked.Timeout result.may_rise result.lead }
{
    let may_rise = may_stand(raft);
    Forecast {
        may_rise,
        lead: lead_alone(raft, may_rise),
    }
}

// Whether the member may stand for election.
fn may_stand(raft: &Raft<Image>) -> bool
    ensures { result ≡ may_stand_so raft.now.held (running_of raft.now) }
{
    !leads(raft) && raft.term() < LAST_NUMBER && raft.last() < LAST_NUMBER - 1
}

// The term of which a member without peers becomes leader, where it may stand for election.
fn lead_alone(raft: &Raft<Image>, stands: bool) -> Option<u64>
    requires { stands ≡ may_stand_so raft.now.held (running_of raft.now) }
    ensures lead { result ≡ (if stands && is_alone raft.now then Some (raft.now.held.term + 1) else None) }
    ensures fits { IfSome result (λ t. (t ≤ 2 ^ 62) × (last_index raft.now.held.log < 2 ^ 62)) }
{
    if stands && raft.match_of(1).is_none() && raft.match_of(2).is_none() {
        return Some(raft.term() + 1);
    }
    None
}

/// What may come of a message by which no more than a no-op is appended.
pub(crate) fn foresee_mail(raft: &Raft<Image>, mail: &Mail<Image>) -> Result<Forecast, NoMemory>
    requires { IsUsual mail.now }
    ensures { IfOk result (λ f. IsForeseen raft.now (asked.Deliver mail.now) f.may_rise f.lead) }
{
    let may_rise = raft.term() < term_of(mail);
    let may_lead = may_elect(raft, mail);
    if may_lead && raft.last() >= LAST_NUMBER {
        return Err(NoMemory);
    }
    Ok(Forecast {
        may_rise,
        lead: lead_of(raft, may_lead),
    })
}

// Its own term, where the member may become leader of it.
fn lead_of(raft: &Raft<Image>, may_lead: bool) -> Option<u64>
    requires { may_lead ≡ true → last_index raft.now.held.log < 2 ^ 62 }
    ensures lead { result ≡ (if may_lead then Some raft.now.held.term else None) }
    ensures fits { IfSome result (λ t. (t ≤ 2 ^ 62) × (last_index raft.now.held.log < 2 ^ 62)) }
{
    if may_lead { Some(raft.term()) } else { None }
}

// The term that a message names.
fn term_of(mail: &Mail<Image>) -> u64
    ensures { result ≡ term_in mail.now }
{
    match mail {
        Mail::Append(append) => append.term,
        Mail::VoteReq { term, .. }
        | Mail::VoteRep { term, .. }
        | Mail::AppendRep { term, .. }
        | Mail::Install { term, .. }
        | Mail::InstallRep { term, .. }
        | Mail::Forward { term, .. } => *term,
    }
}

// Whether a message is a vote that a candidate counts.
fn may_elect(raft: &Raft<Image>, mail: &Mail<Image>) -> bool
    ensures { result ≡ may_elect_so raft.now mail.now }
{
    match mail {
        Mail::VoteRep { term, yes, .. } => {
            *term == raft.term() && matches!(raft.role(), Role::Candidate) && *yes
        }
        _ => false,
    }
}

// Whether the member leads.
fn leads(raft: &Raft<Image>) -> bool
    ensures { result ≡ is_leader raft.now.vars.role }
{
    matches!(raft.role(), Role::Leader)
}

// Puts the no-op of a leader of this term behind the entries. After an error nothing has changed.
fn push_noop(storage: &mut Storage, lead: Option<u64>) -> Result<(), NoMemory>
    requires { IfSome lead (λ t. (t ≤ 2 ^ 62) × (last_of storage.old < 2 ^ 62)) }
    ensures ok { OnOk result (storage.new ≡ with_noops true lead storage.old) }
    ensures err { OnErr result (storage.new ≡ storage.old) }
{
    let Some(term) = lead else {
        return Ok(());
    };
    let entry = Entry {
        term,
        time: 0,
        body: Body::Noop,
    };
    let pushed = storage.preprocess(&entry);
    drop(entry);
    pushed
}

/// What Raft made of an event, and whether the member became leader by it.
#[derive(Drop)]
pub(crate) struct Stepped {
    pub(crate) out: RaftOut<Image>,
    pub(crate) led: bool,
}

/// Raft takes the event, and the storage has the no-op of the term, where the member became its leader. After an error
/// nothing has changed.
pub(crate) fn step_raft(
    raft: &mut Raft<Image>,
    storage: &mut Storage,
    event: RaftEvent<Image>,
    lead: Option<u64>,
) -> Result<Stepped, NoMemory>
    requires may { MayTake raft.old event }
    requires fits { IfSome lead (λ t. (t ≤ 2 ^ 62) × (last_of storage.old < 2 ^ 62)) }
    ensures ok { IfOk result (λ s. Steps raft.old (reaction raft.old event) s.out raft.new) }
    ensures image { IfOk result (λ s. s.out.image ≡ image_of raft.old.members raft.old.node raft.old.held (running_of raft.old) event) }
    ensures led { IfOk result (λ s. s.led ≡ becomes_leader raft.old event) }
    ensures storage { IfOk result (λ s. storage.new ≡ with_noops s.led lead storage.old) }
    ensures err_raft { OnErr result (raft.new ≡ raft.old) }
    ensures err_storage { OnErr result (storage.new ≡ storage.old) }
{
    let last = storage.last();
    if push_noop(storage, lead).is_err() {
        drop(event);
        return Err(NoMemory);
    }
    let led_before = leads(raft);
    match raft.step(event) {
        Ok(out) => {
            let led = !led_before && leads(raft);
            take_back_unless(led, storage, last);
            Ok(Stepped { out, led })
        }
        Err(none) => {
            storage.truncate(last);
            Err(none)
        }
    }
}

// Takes the entries behind an index back, unless the member became leader.
fn take_back_unless(led: bool, storage: &mut Storage, last: u64)
    requires from { storage.old.state.applied ≤ last }
    requires to { last ≤ last_of storage.old }
    ensures { storage.new ≡ (if led then storage.old else truncated storage.old last) }
{
    if !led {
        storage.truncate(last);
    }
}
