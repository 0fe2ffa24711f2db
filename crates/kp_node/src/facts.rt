//! What a node knows of itself, and so what it answers to a four-letter word.

ghost use Rattle.std.specs.Prelude.{◌≡◌, ◌≤◌, ◌^◌, Some, IfOk};
ghost use Rattle.kp_words.specs.declared.word.Word.TheVariants as words_;
ghost use Rattle.kp_words.specs.Answers.{known_word, text_of};
ghost use Rattle.kp_facts.specs.Facts.{log_facts as log_of, facts_of};
ghost use Rattle.kp_facts.specs.Asked.{plain_counts as plain_counts_of, plain_facts as plain_facts_of, asked_facts as asked_facts_of};
ghost use Rattle.kp_node.specs.Parts.{node_of};
ghost use Rattle.kp_node.specs.Facts.{words};

use crate::node::Node;
use kp_facts::{conns, owners, size, watch_counts, watched, watchers};
use kp_model::{Bytes, Items, NoMemory, View};
use kp_words::{Counts, Facts, LogFacts, Word, answer};

impl Node {
    // What it answers to a word: nothing where the bytes are none.
    pub(crate) fn word_text(&self, word: [u8; 4]) -> Result<Bytes, NoMemory>
        ensures { IfOk result (λ text. text ≡ words (node_of self.now) word) }
    {
        match Word::of(word) {
            None => Ok(Bytes::new(self.alloc)),
            Some(known) => self.known_text(word, known),
        }
    }

    // The same of four bytes that are this word.
    fn known_text(&self, word: [u8; 4], known: Word) -> Result<Bytes, NoMemory>
        requires { known_word word ≡ Some known }
        ensures { IfOk result (λ text. text ≡ text_of known (facts_of (node_of self.now))) }
    {
        let facts = self.asked_facts(known)?;
        let told = answer(self.alloc, word, &facts);
        drop(facts);
        match told? {
            None => Ok(Bytes::new(self.alloc)),
            Some(text) => Ok(text),
        }
    }

    // The facts of which a word tells. It costs what the word prints; the size of the tree, of which one tells alone, costs
    // the tree.
    fn asked_facts(&self, word: Word) -> Result<Facts, NoMemory>
        ensures facts { IfOk result (λ f. f ≡ asked_facts_of word (node_of self.now)) }
        ensures range { IfOk result (λ f. f.log.base ≤ 2 ^ 62) }
    {
        match word {
            Word::Connections | Word::Stat => self.facts_of_conns(),
            Word::Monitor => self.facts_with_size(),
            Word::WatchSums => self.facts_with_sums(),
            Word::WatchesByConnection => self.facts_of_watchers(),
            Word::WatchesByPath => self.facts_of_paths(),
            Word::Dump => self.facts_of_sessions(),
            Word::Runs | Word::Writes | Word::Server | Word::Log | Word::Snapshot => {
                Ok(self.plain_facts())
            }
        }
    }

    // Where its log begins and ends.
    fn log_facts(&self) -> LogFacts
        ensures facts { result ≡ log_of (node_of self.now) }
        ensures range { result.base ≤ 2 ^ 62 }
    {
        let commit = self.raft.commit();
        let last = self.raft.last();
        let (base, base_term) = self.raft.base();
        let last_term = match self.raft.term_at(last) {
            Some(term) => term,
            None => base_term,
        };
        LogFacts {
            base,
            last,
            last_term,
            commit,
            applied: self.storage.applied(),
        }
    }

    // The counts that cost nothing.
    #[tactic(auto, using(kp_facts::proofs::Counted::owned_counted))]
    fn plain_counts(&self) -> Counts
        ensures { result ≡ plain_counts_of (node_of self.now) }
    {
        Counts {
            nodes: self.storage.node_count(),
            ephemerals: self.storage.owned_count(),
            size: 0,
            connections: self.seats.len() as u64,
            sessions: self.storage.session_count(),
            watches: self.watches.len() as u64,
            watching: 0,
            watched: 0,
        }
    }

    // The facts that cost nothing.
    fn plain_facts(&self) -> Facts
        ensures facts { result ≡ plain_facts_of (node_of self.now) }
        ensures range { result.log.base ≤ 2 ^ 62 }
    {
        Facts {
            members: self.raft.members(),
            role: self.raft.role(),
            log: self.log_facts(),
            counts: self.plain_counts(),
            conns: Items::new(self.alloc),
            watchers: Items::new(self.alloc),
            watched: Items::new(self.alloc),
            sessions: Items::new(self.alloc),
            owners: Items::new(self.alloc),
        }
    }

    // With the connections.
    fn facts_of_conns(&self) -> Result<Facts, NoMemory>
        ensures facts { IfOk result (λ f. f ≡ asked_facts_of words_.Connections (node_of self.now)) }
        ensures range { IfOk result (λ f. f.log.base ≤ 2 ^ 62) }
    {
        let conns = conns(self.alloc, &self.seats)?;
        let mut facts = self.plain_facts();
        facts.conns = conns;
        Ok(facts)
    }

    // With the size of the tree.
    fn facts_with_size(&self) -> Result<Facts, NoMemory>
        ensures facts { IfOk result (λ f. f ≡ asked_facts_of words_.Monitor (node_of self.now)) }
        ensures range { IfOk result (λ f. f.log.base ≤ 2 ^ 62) }
    {
        let size = size(self.alloc, &self.storage.committed())?;
        let mut facts = self.plain_facts();
        facts.counts.size = size;
        Ok(facts)
    }

    // With how many connections watch how many paths.
    fn facts_with_sums(&self) -> Result<Facts, NoMemory>
        ensures facts { IfOk result (λ f. f ≡ asked_facts_of words_.WatchSums (node_of self.now)) }
        ensures range { IfOk result (λ f. f.log.base ≤ 2 ^ 62) }
    {
        let (watching, watched) = watch_counts(self.alloc, &self.watches)?;
        let mut facts = self.plain_facts();
        facts.counts.watching = watching;
        facts.counts.watched = watched;
        Ok(facts)
    }

    // With what each connection watches.
    fn facts_of_watchers(&self) -> Result<Facts, NoMemory>
        ensures facts { IfOk result (λ f. f ≡ asked_facts_of words_.WatchesByConnection (node_of self.now)) }
        ensures range { IfOk result (λ f. f.log.base ≤ 2 ^ 62) }
    {
        let watchers = watchers(self.alloc, &self.seats, &self.watches)?;
        let mut facts = self.plain_facts();
        facts.watchers = watchers;
        Ok(facts)
    }

    // With who watches each path.
    fn facts_of_paths(&self) -> Result<Facts, NoMemory>
        ensures facts { IfOk result (λ f. f ≡ asked_facts_of words_.WatchesByPath (node_of self.now)) }
        ensures range { IfOk result (λ f. f.log.base ≤ 2 ^ 62) }
    {
        let watched = watched(self.alloc, &self.seats, &self.watches)?;
        let mut facts = self.plain_facts();
        facts.watched = watched;
        Ok(facts)
    }

    // With the sessions, and what they own.
    fn facts_of_sessions(&self) -> Result<Facts, NoMemory>
        ensures facts { IfOk result (λ f. f ≡ asked_facts_of words_.Dump (node_of self.now)) }
        ensures range { IfOk result (λ f. f.log.base ≤ 2 ^ 62) }
    {
        let view = self.storage.committed();
        let sessions = view.sessions(self.alloc)?;
        match owners(self.alloc, &view) {
            Err(none) => {
                drop(sessions);
                Err(none)
            }
            Ok(owners) => {
                let mut facts = self.plain_facts();
                facts.sessions = Items::from_vec(sessions);
                facts.owners = owners;
                Ok(facts)
            }
        }
    }
}
