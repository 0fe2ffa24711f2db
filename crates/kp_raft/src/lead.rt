//! What a leader hears, writes and sends.

ghost use Rattle.std.specs.Prelude.{◌≡◌, ◌+◌, ◌-◌, ◌^◌, ◌<◌, ◌≤◌, ◌++◌, true, false, [], ◌∷◌, length, map, take, drop, slice_get, Some, None, IfOk, IsOk, IsTrue, OnOk, OnErr};
ghost use Rattle.std.specs.List.{list_all};
ghost use Rattle.kp_model.specs.Grammar.{is_body};
ghost use Rattle.kp_entry.specs.Log.{last_index};
ghost use Rattle.kp_model.specs.Majority.{count};
ghost use Rattle.kp_raft.specs.Numbers.{for_peers};
ghost use Rattle.kp_raft.specs.Parts.{is_leader};
ghost use Rattle.kp_raft.specs.Rules.{entry_with, on_append_rep, on_propose};
ghost use Rattle.kp_raft.specs.Members.{running_of, Steps};

use crate::event::RaftOut;
use crate::raft::Raft;
use crate::rules::is_leader;
use crate::vars::MAX;
use kp_entry::Entries;
use kp_model::{Body, Entry, Items, NoMemory};
use std::alloc::Global;

impl<I: Drop> Raft<I> {
    // A peer answers an append, or took an image.
    pub(crate) fn on_append_rep(
        &mut self,
        term: u64,
        from: u8,
        ok: bool,
        last: u64,
    ) -> Result<RaftOut<I>, NoMemory>
        requires term { term ≤ 2 ^ 62 }
        requires from { from ≤ 7 }
        requires last { last ≤ 2 ^ 62 }
        ensures ok { IfOk result (λ out. Steps self.old (on_append_rep self.old.members self.old.node self.old.held (running_of self.old) term from ok last) out self.new) }
        ensures image { IfOk result (λ out. out.image ≡ None) }
        ensures err { OnErr result (self.new ≡ self.old) }
        ensures free { IsTrue self.old.ready → IsOk result }
    {
        let vars = self.variables();
        if term != self.term() || !is_leader(vars.role) {
            return self.on_term(term);
        }
        if !ok {
            return self.same(vars.with_next(from, last), None);
        }
        let (node, members) = self.numbers();
        let vars = vars.with_match(node, members, self.term(), self.log(), from, last);
        self.same(vars, None)
    }

    // Bodies for a leader to append.
    pub(crate) fn on_propose(
        &mut self,
        time: u64,
        bodies: Items<Body>,
    ) -> Result<RaftOut<I>, NoMemory>
        requires leads { is_leader self.old.vars.role ≡ true }
        requires time { time ≤ 2 ^ 62 }
        requires bodies { IsTrue (list_all is_body bodies) }
        ensures ok { IfOk result (λ out. Steps self.old (on_propose self.old.members self.old.node self.old.held (running_of self.old) time bodies) out self.new) }
        ensures image { IfOk result (λ out. out.image ≡ None) }
        ensures err { OnErr result (self.new ≡ self.old) }
    {
        let term = self.term();
        let vote = self.vote();
        let last = self.last();
        let entries = entries_of(self.allocator(), term, time, bodies, MAX - last)?;
        let vars = self.variables().still_leading(last + entries.len() as u64);
        self.append_own(term, vote, &entries, vars)
    }
}

// The entries of the first of these bodies, of which there are at most `most`.
fn entries_of(
    alloc: Global,
    term: u64,
    time: u64,
    bodies: Items<Body>,
    most: u64,
) -> Result<Entries, NoMemory>
    requires term { term ≤ 2 ^ 62 }
    requires time { time ≤ 2 ^ 62 }
    requires bodies { IsTrue (list_all is_body bodies) }
    ensures { IfOk result (λ es. es ≡ take most (map (entry_with term time) bodies)) }
{
    let mut entries = Entries::new(alloc);
    for body in bodies.into_vec() {
        push_body(&mut entries, term, time, body, most)?;
    }
    Ok(entries)
}

// Adds the entry of this body, where there are fewer than `most`.
fn push_body(
    entries: &mut Entries,
    term: u64,
    time: u64,
    body: Body,
    most: u64,
) -> Result<(), NoMemory>
    requires term { term ≤ 2 ^ 62 }
    requires time { time ≤ 2 ^ 62 }
    requires body { IsTrue (is_body body) }
    ensures { OnOk result (entries.new ≡ entries.old ++ take (most - length entries.old) (entry_with term time body ∷ [])) }
{
    if most <= entries.len() as u64 {
        drop(body);
        return Ok(());
    }
    let entry = Entry::new(term, time, body)?;
    entries.push(&entry)
}
