//! Watches that a client sets anew on a new connection.
ghost use Rattle.std.specs.Prelude.{◌≡◌, ◌++◌, ℕ, List, map, take, IfOk, OnOk, OnErr, option_copied};
ghost use Rattle.kp_watch.specs.declared.again.Line.TheVariants as line;
ghost use Rattle.kp_watch.specs.declared.watch.Watch.{Watch};
ghost use Rattle.kp_watch.specs.Watching.{Grown, line_kind, owed, shows, set_one, set_line, set_again};

use crate::kind::Kind;
use crate::watches::Watches;
use kp_model::{Event, Events, Meta, NoMemory, Text, View};
use std::alloc::Global;

/// One of the three lists of watches that are set anew.
#[derive(Clone, Copy)]
pub enum Line {
    /// Data watches of nodes.
    Data,
    /// Data watches of paths without a node.
    Exist,
    /// Child watches of nodes.
    Child,
}

// The kind of the watches of a list.
fn line_kind(line: Line) -> Kind
    ensures { result ≡ line_kind line }
{
    match line {
        Line::Data => Kind::Data,
        Line::Exist => Kind::Data,
        Line::Child => Kind::Child,
    }
}

// What a data watch owes.
fn owed_data(
    alloc: Global,
    since: u64,
    path: &Text,
    meta: Option<&Meta>,
) -> Result<Option<Event>, NoMemory>
    ensures { IfOk result (λ e. e ≡ owed line.Data since path.now (option_copied meta.entry)) }
{
    match meta {
        None => Ok(Some(Event::Deleted(path.copy(alloc)?))),
        Some(meta) => {
            if since < meta.mzxid {
                Ok(Some(Event::DataChanged(path.copy(alloc)?)))
            } else {
                Ok(None)
            }
        }
    }
}

// What a watch of a path without a node owes.
fn owed_exist(alloc: Global, path: &Text, meta: Option<&Meta>) -> Result<Option<Event>, NoMemory>
    ensures { (since : ℕ) → IfOk result (λ e. e ≡ owed line.Exist since path.now (option_copied meta.entry)) }
{
    match meta {
        None => Ok(None),
        Some(_) => Ok(Some(Event::Created(path.copy(alloc)?))),
    }
}

// What a child watch owes.
fn owed_child(
    alloc: Global,
    since: u64,
    path: &Text,
    meta: Option<&Meta>,
) -> Result<Option<Event>, NoMemory>
    ensures { IfOk result (λ e. e ≡ owed line.Child since path.now (option_copied meta.entry)) }
{
    match meta {
        None => Ok(Some(Event::Deleted(path.copy(alloc)?))),
        Some(meta) => {
            if since < meta.pzxid {
                Ok(Some(Event::ChildrenChanged(path.copy(alloc)?)))
            } else {
                Ok(None)
            }
        }
    }
}

// The event that a path owes at once; None where its watch is to be set.
fn owed(
    alloc: Global,
    line: Line,
    since: u64,
    path: &Text,
    meta: Option<&Meta>,
) -> Result<Option<Event>, NoMemory>
    ensures { IfOk result (λ e. e ≡ owed line since path.now (option_copied meta.entry)) }
{
    match line {
        Line::Data => owed_data(alloc, since, path, meta),
        Line::Exist => owed_exist(alloc, path, meta),
        Line::Child => owed_child(alloc, since, path, meta),
    }
}

impl Watches {
    // Sets one watch anew, or adds the event that it owes.
    fn set_one(
        &mut self,
        events: &mut Events,
        conn: u64,
        line: Line,
        path: &Text,
        owed: Option<Event>,
    ) -> Result<(), NoMemory>
        ensures ok { OnOk result (shows conn events.new self.new ≡ set_one conn line path.now owed (shows conn events.old self.old)) }
        ensures grown { Grown self.old self.new }
    {
        match owed {
            Some(event) => events.push(event),
            None => self.add(path.as_str(), line_kind(line), conn),
        }
    }

    // Sets the watches of a list anew, one after another, and adds the events that they owe.
    fn set_line<V: View>(
        &mut self,
        events: &mut Events,
        conn: u64,
        line: Line,
        since: u64,
        paths: &[Text],
        view: &V,
    ) -> Result<(), NoMemory>
        ensures ok { OnOk result (shows conn events.new self.new ≡ set_line (V.state view.now).nodes conn since line paths.now (shows conn events.old self.old)) }
        ensures grown { Grown self.old self.new }
    {
        for path in paths {
            let owed = owed(
                self.allocator(),
                line,
                since,
                path,
                view.meta(path.as_str()),
            )?;
            self.set_one(events, conn, line, path, owed)?;
        }
        Ok(())
    }

    // Sets the watches of the three lists anew.
    fn set_lines<V: View>(
        &mut self,
        events: &mut Events,
        conn: u64,
        since: u64,
        on_data: &[Text],
        on_exist: &[Text],
        on_child: &[Text],
        view: &V,
    ) -> Result<(), NoMemory>
        ensures ok { OnOk result (shows conn events.new self.new ≡ set_line (V.state view.now).nodes conn since line.Child on_child.now (set_line (V.state view.now).nodes conn since line.Exist on_exist.now (set_line (V.state view.now).nodes conn since line.Data on_data.now (shows conn events.old self.old)))) }
        ensures grown { Grown self.old self.new }
    {
        self.set_line(events, conn, Line::Data, since, on_data, view)?;
        self.set_line(events, conn, Line::Exist, since, on_exist, view)?;
        self.set_line(events, conn, Line::Child, since, on_child, view)
    }

    // Takes the last watches away, so that not more than `len` are left.
    fn shorten(&mut self, len: usize)
        ensures { self.new ≡ take len self.old }
    {
        while len < self.len() {
            self.pop();
        }
    }

    /// Sets the watches of a client anew that was last told of the index `since`: answers the events
    /// that the connection is owed at once, in their order, and sets the other watches.
    ///
    /// A path of `on_data` owes that it is deleted where it has no node, and that its data changed
    /// where its data was set after `since`. A path of `on_exist` owes that it was created where it
    /// has a node. A path of `on_child` owes that it is deleted where it has no node, and that its
    /// children changed where they changed after `since`. A watch that is there stays, also where
    /// its path owes an event. After an error nothing has changed.
    pub fn set_watches<V: View>(
        &mut self,
        conn: u64,
        since: u64,
        on_data: &[Text],
        on_exist: &[Text],
        on_child: &[Text],
        view: &V,
    ) -> Result<Events, NoMemory>
        ensures told { IfOk result (λ events. map (λ e. (conn, e)) events ≡ (set_again self.old (V.state view.now).nodes conn since on_data.now on_exist.now on_child.now).pairs) }
        ensures left { OnOk result (self.new ≡ (set_again self.old (V.state view.now).nodes conn since on_data.now on_exist.now on_child.now).left) }
        ensures err { OnErr result (self.new ≡ self.old) }
    {
        let before = self.len();
        let mut events = Events::new(self.allocator());
        match self.set_lines(&mut events, conn, since, on_data, on_exist, on_child, view) {
            Ok(()) => Ok(events),
            Err(none) => {
                self.shorten(before);
                drop(events);
                Err(none)
            }
        }
    }
}
