ghost use Rattle.std.specs.Prelude.{◌≡◌, Bool, IfOk, IsTrue, OnErr, option_copied};
ghost use Rattle.std.specs.FinMap as map;
ghost use Rattle.kp_model.specs.Grammar.{is_number};
ghost use Rattle.kp_model.specs.Path.{is_well_formed};
ghost use Rattle.kp_model.specs.State.{State, meta_at, bytes_at, acl_at, kids, owned, is_held};
ghost use Rattle.kp_model.specs.Poured.{node_of, started, with_session, with_node};

use crate::memory::NoMemory;
use crate::node::{Acl, Meta};
use crate::session::{Origin, Session};
use crate::text::Paths;
use std::alloc::Global;

/// A state that is looked at. The calls that lend take no memory.
pub trait View {
    /// The state that the view stands for.
    ghost state: { Self → State };

    /// The numbers of a node; None exactly where there is no such node.
    fn meta(&self, path: &str) -> Option<&Meta>
        ensures { option_copied result ≡ meta_at (state self.now).nodes path.now };

    /// The data of a node; None exactly where there is no such node.
    fn content(&self, path: &str) -> Option<&[u8]>
        ensures { option_copied result ≡ bytes_at (state self.now).nodes path.now };

    /// The access list of a node; None exactly where there is no such node.
    fn acl(&self, path: &str) -> Option<&[Acl]>
        ensures { option_copied result ≡ acl_at (state self.now).nodes path.now };

    /// A live session; None exactly where there is none of this number.
    fn session(&self, id: u64) -> Option<&Session>
        ensures { option_copied result ≡ map.get (state self.now).sessions id };

    /// Whether a live session is held by this origin.
    fn holds(&self, origin: &Origin) -> bool
        ensures { result ≡ is_held (state self.now).sessions origin.now };

    /// The number that the next session gets.
    fn next_session(&self) -> u64
        ensures { result ≡ (state self.now).next };

    /// The names of the children of a path, ascending; none where there is no such node.
    fn kids(&self, alloc: Global, path: &str) -> Result<Paths, NoMemory>
        ensures { IfOk result (λ names. names ≡ kids (state self.now).nodes path.now) };

    /// The paths of the nodes that a session owns, ascending.
    fn owned(&self, alloc: Global, session: u64) -> Result<Paths, NoMemory>
        ensures { IfOk result (λ paths. paths ≡ owned (state self.now).nodes session) };

    /// The numbers of the live sessions, ascending.
    fn sessions(&self, alloc: Global) -> Result<Vec<u64>, NoMemory>
        ensures { IfOk result (λ ids. ids.items ≡ map.keys (state self.now).sessions) };

    /// The paths of all nodes, ascending.
    fn paths(&self, alloc: Global) -> Result<Paths, NoMemory>
        ensures { IfOk result (λ paths. paths ≡ map.keys (state self.now).nodes) };
}

/// A value that a state is poured into, part by part.
pub trait Fill {
    /// The state that the value stands for.
    ghost state: { Self → State };

    /// That it may be poured into. Each call keeps this.
    ghost takes: { Self → Type 0 };

    /// Sets the applied index and the next session number.
    fn start(&mut self, applied: u64, next_session: u64)
        requires may { takes self.old }
        requires applied { IsTrue (is_number applied) }
        requires next { IsTrue (is_number next_session) }
        ensures set { state self.new ≡ started (state self.old) applied next_session }
        ensures may { takes self.new };

    /// Sets a session, in place of one that has its number.
    fn session(&mut self, id: u64, session: &Session) -> Result<(), NoMemory>
        requires may { takes self.old }
        ensures set { IfOk result (λ _. state self.new ≡ with_session (state self.old) id session.now) }
        ensures err { OnErr result (self.new ≡ self.old) }
        ensures may { takes self.new };

    /// Sets a node, in place of one that has its path. What `meta` says of the length and of the children is not looked at.
    fn node(&mut self, path: &str, content: &[u8], acl: &[Acl], meta: &Meta) -> Result<(), NoMemory>
        requires may { takes self.old }
        requires path { IsTrue (is_well_formed path.now) }
        ensures set { IfOk result (λ _. state self.new ≡ with_node (state self.old) path.now (node_of content.now acl.now meta.now)) }
        ensures err { OnErr result (self.new ≡ self.old) }
        ensures may { takes self.new };
}
