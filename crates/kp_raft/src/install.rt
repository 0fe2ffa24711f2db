//! Images: one that a leader sent, and the own.

ghost use Rattle.std.specs.Prelude.{◌≡◌, ◌^◌, ◌<◌, ◌≤◌, ℕ, nat_lt, nat_le, ◌||◌, true, ◌∷◌, [], None, Some, IfOk, IsOk, IsTrue, OnErr};
ghost use Rattle.kp_entry.specs.Log.{last_index};
ghost use Rattle.kp_raft.specs.Appends.{on_install, on_compact};
ghost use Rattle.kp_raft.specs.Steps.{image_in};
ghost use Rattle.kp_raft.specs.Members.{running_of, Steps};

use crate::event::RaftOut;
use crate::mail::Mail;
use crate::raft::Raft;
use crate::rules::term_of;
use kp_model::NoMemory;

impl<I: Drop> Raft<I> {
    // A leader sent an image.
    pub(crate) fn on_install(
        &mut self,
        term: u64,
        from: u8,
        index: u64,
        index_term: u64,
        image: I,
    ) -> Result<RaftOut<I>, NoMemory>
        requires term { term ≤ 2 ^ 62 }
        requires index { index ≤ 2 ^ 62 }
        requires index_term { index_term ≤ 2 ^ 62 }
        ensures ok { IfOk result (λ out. Steps self.old (on_install self.old.node self.old.held (running_of self.old) term from index index_term) out self.new) }
        ensures image { IfOk result (λ out. out.image ≡ image_in self.old.held (running_of self.old) (Mail.Install term from index index_term image)) }
        ensures err { OnErr result (self.new ≡ self.old) }
        ensures free { IsTrue self.old.ready → IsOk result }
    {
        if term < self.term() || index <= self.commit() {
            drop(image);
            return self.keep_own(term, from, index);
        }
        match self.install(term, from, index, index_term) {
            Ok(out) => Ok(with_image(out, image)),
            Err(none) => {
                drop(image);
                Err(none)
            }
        }
    }

    // An image that isn't taken.
    fn keep_own(&mut self, term: u64, from: u8, index: u64) -> Result<RaftOut<I>, NoMemory>
        requires term { term ≤ 2 ^ 62 }
        requires old { nat_lt term self.old.held.term || nat_le index self.old.vars.commit ≡ true }
        ensures ok { (index_term : ℕ) → IfOk result (λ out. Steps self.old (on_install self.old.node self.old.held (running_of self.old) term from index index_term) out self.new) }
        ensures image { IfOk result (λ out. out.image ≡ None) }
        ensures err { OnErr result (self.new ≡ self.old) }
        ensures free { IsTrue self.old.ready → IsOk result }
    {
        if term < self.term() {
            let vars = self.variables();
            let answer = self.refusal(from, self.term());
            return self.same(vars, Some(answer));
        }
        let vote = self.vote_at(term);
        let vars = self.variables().following(from);
        let answer = self.install_answer(from, term, self.commit());
        self.still(term, vote, None, vars, Some(answer))
    }

    // An image that is taken.
    fn install(
        &mut self,
        term: u64,
        from: u8,
        index: u64,
        index_term: u64,
    ) -> Result<RaftOut<I>, NoMemory>
        requires term { (self.old.held.term ≤ term) × (term ≤ 2 ^ 62) }
        requires index { (self.old.vars.commit < index) × (index ≤ 2 ^ 62) }
        requires index_term { index_term ≤ 2 ^ 62 }
        ensures ok { IfOk result (λ out. Steps self.old (on_install self.old.node self.old.held (running_of self.old) term from index index_term) out self.new) }
        ensures err { OnErr result (self.new ≡ self.old) }
        ensures free { IsTrue self.old.ready → IsOk result }
    {
        let vote = self.vote_at(term);
        let vars = self.variables().committing(from, index);
        let answer = self.install_answer(from, term, index);
        self.settle(term, vote, index, index_term, vars, Some(answer))
    }

    // The answer to an image: the log is the leader's up to this index.
    fn install_answer(&self, to: u8, term: u64, index: u64) -> (u8, Mail<I>)
        ensures { result ≡ (to, Mail.InstallRep term self.now.node index) }
    {
        let (node, _) = self.numbers();
        let answer = Mail::InstallRep {
            term,
            from: node,
            index,
        };
        (to, answer)
    }

    // The own image of the tree at this index becomes the base, where it is a later one.
    pub(crate) fn on_compact(&mut self, index: u64) -> Result<RaftOut<I>, NoMemory>
        requires from { self.old.held.log.base ≤ index }
        requires to { index ≤ self.old.vars.commit }
        ensures ok { IfOk result (λ out. Steps self.old (on_compact self.old.held (running_of self.old) index) out self.new) }
        ensures image { IfOk result (λ out. out.image ≡ None) }
        ensures err { OnErr result (self.new ≡ self.old) }
        ensures free { IsTrue self.old.ready → IsOk result }
    {
        let vars = self.variables();
        let (base, _) = self.base();
        if index <= base {
            return self.same(vars, None);
        }
        let term = self.term();
        let vote = self.vote();
        let index_term = term_of(self.log(), index);
        self.settle(term, vote, index, index_term, vars, None)
    }
}

// The same with this image.
fn with_image<I: Drop>(out: RaftOut<I>, image: I) -> RaftOut<I>
    ensures { result ≡ record out { image = Some image } }
{
    RaftOut {
        image: Some(image),
        ..out
    }
}
