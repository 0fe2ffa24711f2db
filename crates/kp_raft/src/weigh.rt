//! How the entries of a message stand to those of a log.

ghost use Rattle.std.specs.Prelude.{◌≡◌, ◌+◌, ◌^◌, ◌<◌, ◌≤◌, ◌-◌, length, drop, get_or};
ghost use Rattle.kp_model.specs.LogEntry.{LogEntry};
ghost use Rattle.kp_entry.specs.Log.{behind, last_index};
ghost use Rattle.kp_raft.specs.Appends.{fits, agreeing, matched};

use kp_entry::Entries;
use kp_raftlog::RaftLog;

/// Whether the entry of index `prev` counts as the sender's.
pub(crate) fn fits(log: &RaftLog, prev: u64, prev_term: u64) -> bool
    ensures { result ≡ fits log.now prev prev_term }
{
    let (base, _) = log.base();
    if prev <= base {
        return true;
    }
    match log.term_at(prev) {
        None => false,
        Some(term) => term == prev_term,
    }
}

/// How many of the first entries the log has already.
pub(crate) fn matched_of(log: &RaftLog, prev: u64, entries: &Entries) -> usize
    requires { prev + length entries.now ≤ 2 ^ 62 }
    ensures matched { result ≡ matched log.now prev entries.now }
    ensures few { result ≤ length entries.now }
    ensures reach { prev ≤ last_index log.now → prev + result ≤ last_index log.now }
{
    let (base, _) = log.base();
    let below = base.saturating_sub(prev).min(entries.len() as u64);
    below as usize + agreeing(log, prev + below, entries, below as usize)
}

// How many of the entries from place `first` on have the terms of those behind the index.
fn agreeing(log: &RaftLog, at: u64, entries: &Entries, first: usize) -> usize
    requires first { first ≤ length entries.now }
    requires from { first < length entries.now → log.now.base ≤ at }
    requires range { at + (length entries.now - first) ≤ 2 ^ 62 }
    ensures count { result ≡ agreeing (behind log.now at) (drop first entries.now) }
    ensures few { result ≤ length entries.now - first }
{
    for k in 0..entries.len() - first {
        if !agrees(log, at + k as u64 + 1, entries, first + k) {
            return k;
        }
    }
    entries.len() - first
}

// Whether the log has at the index the term of the entry at this place.
fn agrees(log: &RaftLog, index: u64, entries: &Entries, place: usize) -> bool
    requires { place < length entries.now }
    ensures { (e : LogEntry) → result ≡ Rattle.kp_raft.specs.Appends.has_term log.now index (get_or entries.now place e).term }
{
    match entries.term_at(place) {
        None => false,
        Some(term) => has_term(log, index, term),
    }
}

/// Whether the log has this term at the index.
pub(crate) fn has_term(log: &RaftLog, index: u64, term: u64) -> bool
    ensures { result ≡ Rattle.kp_raft.specs.Appends.has_term log.now index term }
{
    match log.term_at(index) {
        None => false,
        Some(own) => own == term,
    }
}
