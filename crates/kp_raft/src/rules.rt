//! What the rules ask of a log, of votes and of matches.

ghost use Rattle.std.specs.Prelude.{◌≡◌, ◌<◌, ◌≤◌, ◌^◌, ℕ, false, get_or};
ghost use Rattle.kp_entry.specs.Log.{last_index, term_of};
ghost use Rattle.kp_model.specs.Majority.{count, is_majority};
ghost use Rattle.kp_raft.specs.Parts.{is_leader, is_candidate};
ghost use Rattle.kp_raft.specs.Rules.{is_up_to_date, has_up_to, commit_of, may_commit};

use kp_model::Role;
use kp_raftlog::RaftLog;

/// Whether it is a leader's.
pub(crate) fn is_leader(role: Role) -> bool
    ensures { result ≡ is_leader role }
{
    match role {
        Role::Leader => true,
        Role::Candidate | Role::Follower => false,
    }
}

/// Whether it is a candidate's.
pub(crate) fn is_candidate(role: Role) -> bool
    ensures { result ≡ is_candidate role }
{
    match role {
        Role::Candidate => true,
        Role::Leader | Role::Follower => false,
    }
}

/// The term at this index: that of the base up to there, and that of the last entry behind it.
pub(crate) fn term_of(log: &RaftLog, index: u64) -> u64
    ensures term { result ≡ term_of log.now index }
    ensures range { result ≤ 2 ^ 62 }
{
    let (base, base_term) = log.base();
    if index <= base {
        return base_term;
    }
    let at = index.min(log.last());
    match log.term_at(at) {
        None => base_term,
        Some(term) => term,
    }
}

/// Whether a candidate whose log ends so is at least as far as this log.
pub(crate) fn is_up_to_date(log: &RaftLog, last_term: u64, last: u64) -> bool
    ensures { result ≡ is_up_to_date last_term last log.now }
{
    let own = log.last();
    let own_term = term_of(log, own);
    own_term < last_term || (own_term == last_term && own <= last)
}

/// Whether more than half of the members have voted.
pub(crate) fn is_elected(members: u8, votes: &[bool; 8]) -> bool
    requires { members < 8 }
    ensures { result ≡ is_majority members (λ k. get_or votes.now k false) }
{
    let mut sum: usize = 0;
    for k in 0..members as usize {
        if votes[k + 1] {
            sum += 1;
        }
    }
    (members as usize) < 2 * sum
}

/// Whether more than half of the members have the leader's log up to this index.
pub(crate) fn is_held(members: u8, me: u8, matches: &[u64; 8], index: u64) -> bool
    requires { members < 8 }
    ensures { result ≡ is_majority members (has_up_to me (λ k. get_or matches.now k 0) index) }
{
    let mut sum: usize = 0;
    for k in 0..members as usize {
        if k + 1 == me as usize || index <= matches[k + 1] {
            sum += 1;
        }
    }
    (members as usize) < 2 * sum
}

/// The commit index of a leader of this term: that of its last entry of the term that more than half of the members
/// have, where it is above `old`.
pub(crate) fn commit_of(
    members: u8,
    me: u8,
    term: u64,
    log: &RaftLog,
    matches: &[u64; 8],
    old: u64,
) -> u64
    requires { members < 8 }
    ensures index { result ≡ commit_of members me term log.now (λ k. get_or matches.now k 0) old }
    ensures grows { old ≤ result }
    ensures within { old ≤ last_index log.now → result ≤ last_index log.now }
{
    let held = held_up_to(members, me, matches, log.last());
    for passed in 0..held.saturating_sub(old) {
        let index = held - passed;
        if may_commit(members, me, term, log, matches, index) {
            return index;
        }
    }
    old
}

// Whether the index has an entry of this term that more than half of the members have.
fn may_commit(members: u8, me: u8, term: u64, log: &RaftLog, matches: &[u64; 8], index: u64) -> bool
    requires { members < 8 }
    ensures { result ≡ may_commit members me term log.now (λ k. get_or matches.now k 0) index }
{
    term_of(log, index) == term && is_held(members, me, matches, index)
}

// The greatest index up to `last` that more than half of the members have, or a later one: none behind it is theirs.
fn held_up_to(members: u8, me: u8, matches: &[u64; 8], last: u64) -> u64
    requires { members < 8 }
    ensures within { result ≤ last }
    ensures none { (i : ℕ) → result < i → i ≤ last → is_majority members (has_up_to me (λ k. get_or matches.now k 0) i) ≡ false }
{
    let mut index = last;
    for _ in 0..members {
        if is_held(members, me, matches, index) {
            return index;
        }
        index = next_below(members, matches, index);
    }
    index
}

// The greatest match number below the index, or 0.
fn next_below(members: u8, matches: &[u64; 8], index: u64) -> u64
    requires { members < 8 }
    ensures within { result ≤ index }
    ensures most { (k : ℕ) → 1 ≤ k → k ≤ members → get_or matches.now k 0 < index → get_or matches.now k 0 ≤ result }
{
    let mut best: u64 = 0;
    for k in 0..members as usize {
        let known = matches[k + 1];
        if best < known && known < index {
            best = known;
        }
    }
    best
}
