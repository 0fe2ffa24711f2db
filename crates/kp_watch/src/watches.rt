//! The watches, in order of registration.
ghost use Rattle.std.specs.Prelude.{◌≡◌, ◌∷◌, ◌++◌, [], ◌<◌, length, map, false, not, slice_get, IfOk, OnOk, OnErr, option_copied};
ghost use Rattle.std.specs.List.{filter, list_any};
ghost use Rattle.kp_watch.specs.declared.watch.Watch.{Watch};
ghost use Rattle.kp_watch.specs.Watching.{same_watch, added, dropped, is_at, watching, unfired};

use crate::index::{Book, clear_conn, clear_last, clear_spot, conns_at, enter_watch, is_there};
use crate::kind::Kind;
use crate::owners::Owners;
use crate::sides::Sides;
use crate::watch::Watch;
use kp_model::{Event, NoMemory};
use std::alloc::Global;
use std::collections::{BTreeMap, HashMap};
use std::marker::Model;

/// The watches in order of registration: at most one for each path, kind and connection.
///
/// Each has a number of its own, counted up and never given again. The watches of a path and kind,
/// and those of a connection, are found at their own cost, however many others there are.
#[derive(Drop)]
pub struct Watches {
    alloc: Global,
    // the watches by their numbers
    book: Book,
    // the numbers by path, kind and connection
    sides: Sides,
    // the numbers by connection
    own: Owners,
    // above every number that was given
    next: u64,
}

impl Model for Watches {
    ghost use Rattle.std.specs.Prelude.{List};
    ghost use Rattle.std.specs.Coded.{coded_list};
    ghost use Rattle.kp_watch.specs.declared.watch.Watch.{Watch};
    ghost use Rattle.kp_watch.specs.contracts.watch.Watch as watch;

    ghost Value = { List Watch };

    ghost coded = { coded_list watch.the_row.coded };

    ghost use Rattle.kp_watch.specs.Numbered.{watches_of};
    ghost use Rattle.kp_watch.specs.Indexed.{AreIndexed, AreBelow};

    ghost view = { λ w. watches_of w.book.entries };

    ghost invariant = { λ w. AreIndexed w.book.entries w.sides w.own.entries × AreBelow w.next w.book.entries };
}

impl Watches {
    /// No watches. Their growth takes memory from `alloc`.
    pub fn new(alloc: Global) -> Watches
        ensures { result ≡ [] }
    {
        Watches {
            alloc,
            book: BTreeMap::new(alloc),
            sides: Sides {
                data: HashMap::new(alloc),
                child: HashMap::new(alloc),
            },
            own: HashMap::new(alloc),
            next: 0,
        }
    }

    /// How many watches there are.
    pub fn len(&self) -> usize
        ensures { result ≡ length self.now }
    {
        self.book.len()
    }

    // Whether the watch is there.
    fn has(&self, path: &str, kind: Kind, conn: u64) -> bool
        ensures { result ≡ list_any (same_watch (record { path = path.now; kind = kind; conn = conn })) self.now }
    {
        is_there(&self.book, &self.sides, path, kind, conn)
    }

    // Adds a watch, which isn't there.
    fn add_new(&mut self, path: &str, kind: Kind, conn: u64) -> Result<(), NoMemory>
        requires { list_any (same_watch (record { path = path.now; kind = kind; conn = conn })) self.old ≡ false }
        ensures ok { OnOk result (self.new ≡ self.old ++ record { path = path.now; kind = kind; conn = conn } ∷ []) }
        ensures err { OnErr result (self.new ≡ self.old) }
    {
        let number = self.next;
        if number == u64::MAX {
            return Err(NoMemory);
        }
        enter_watch(
            &mut self.book,
            &mut self.sides,
            &mut self.own,
            self.alloc,
            path,
            kind,
            conn,
            number,
        )?;
        self.next = number + 1;
        Ok(())
    }

    /// Sets a watch. One that is there keeps its place. After an error nothing has changed.
    #[tactic(auto, unfolding(crate::specs::Watching::added))]
    pub fn add(&mut self, path: &str, kind: Kind, conn: u64) -> Result<(), NoMemory>
        ensures ok { OnOk result (self.new ≡ added self.old (record { path = path.now; kind = kind; conn = conn })) }
        ensures err { OnErr result (self.new ≡ self.old) }
    {
        if self.has(path, kind, conn) {
            return Ok(());
        }
        self.add_new(path, kind, conn)
    }

    /// Takes all watches of the connection away. It takes no memory, and costs these watches, times a
    /// logarithm.
    pub fn drop_conn(&mut self, conn: u64)
        ensures { self.new ≡ dropped self.old conn }
    {
        clear_conn(&mut self.book, &mut self.sides, &mut self.own, conn);
    }

    /// The connections that watch the path so, in order of registration.
    pub(crate) fn conns(&self, path: &str, kind: Kind) -> Result<Vec<u64>, NoMemory>
        ensures { IfOk result (λ conns. conns.items ≡ watching self.now path.now kind) }
    {
        conns_at(&self.book, &self.sides, self.alloc, path, kind)
    }

    /// Takes all watches of the path and the kind away.
    pub(crate) fn clear(&mut self, path: &str, kind: Kind)
        ensures { self.new ≡ filter (λ w. not (is_at path.now kind w)) self.old }
    {
        clear_spot(&mut self.book, &mut self.sides, &mut self.own, path, kind);
    }

    /// Takes the last watch away, if there is one.
    pub(crate) fn pop(&mut self)
        ensures { 0 < length self.old → (w : Watch) × (self.old ≡ self.new ++ w ∷ []) }
    {
        clear_last(&mut self.book, &mut self.sides, &mut self.own);
    }

    /// The watch at the place in order of registration, counted from 0. It costs the place; `list`
    /// lists them all at once.
    pub fn at(&self, k: usize) -> Option<&Watch>
        ensures { option_copied result ≡ slice_get self.now k }
    {
        self.book.values().nth(k)
    }

    /// The watches in order of registration.
    pub fn list(&self, alloc: Global) -> Result<Vec<&Watch>, NoMemory>
        ensures { IfOk result (λ list. map (λ w. w.now) list.items ≡ self.now) }
    {
        let mut list = Vec::with_capacity(alloc, self.book.len())?;
        for watch in self.book.values() {
            list.push(watch)?;
        }
        Ok(list)
    }

    /// The allocator.
    pub(crate) fn allocator(&self) -> Global {
        self.alloc
    }
}
