// A sink with what it has yet to take.
ghost use Rattle.std.specs.Prelude.{◌≡◌, ◌<◌, ◌≤◌, ◌+◌, [], None, length, drop};
ghost use Rattle.kp_outlet.specs.Outlets.{HandsOut, IsOutlet, IsWithin, Keeps, Settles, has_rest, kept};

use crate::ready_sink::ReadySink;
use std::alloc::Global;

/// The most bytes that are kept.
const MOST: usize = 4_194_304;

/// Why nothing more goes out.
#[derive(Clone, Copy, Drop)]
pub enum OutletEnd {
    /// The sink failed.
    Fault,

    /// More than 4,194,304 bytes would have been kept.
    Full,

    /// There was no memory for what was to be kept.
    NoMemory,
}

/// A sink, and the bytes that it has yet to take: those of `rest` from `from` on. Once it has an end nothing more goes out.
#[derive(Drop)]
pub struct Outlet<W> {
    sink: W,
    rest: Vec<u8>,
    from: usize,
    end: Option<OutletEnd>,
}

impl<W: ReadySink> Outlet<W> {
    /// An outlet before a sink, which keeps nothing.
    pub fn new(alloc: Global, sink: W) -> Outlet<W>
        ensures outlet { IsOutlet result }
        ensures sink { result.sink ≡ sink }
        ensures kept { kept result ≡ [] }
        ensures open { result.end ≡ None }
    {
        Outlet {
            sink,
            rest: Vec::new(alloc),
            from: 0,
            end: None,
        }
    }

    /// Why nothing goes out any more, or None where something may.
    pub fn end(&self) -> Option<OutletEnd>
        ensures { result ≡ self.now.end }
    {
        self.end
    }

    /// Whether there are bytes that the sink has yet to take.
    pub fn has_rest(&self) -> bool
        requires { IsOutlet self.now }
        ensures { result ≡ has_rest self.now }
    {
        self.from < self.rest.len()
    }

    /// Hands bytes out. What the sink can't take now is kept, or the outlet has an end from then on.
    pub fn hand(&mut self, bytes: &[u8])
        requires { IsOutlet self.old }
        ensures outlet { IsOutlet self.new }
        ensures hands { HandsOut W.held W.faults self.old self.new bytes.now }
    {
        if self.end.is_some() {
            return;
        }
        if self.from < self.rest.len() {
            keep(self, bytes);
            return;
        }
        match self.sink.offer(bytes) {
            Ok(count) => keep(self, &bytes[count..]),
            Err(_) => self.end = Some(OutletEnd::Fault),
        }
    }

    /// Offers the sink what is kept.
    pub fn push_on(&mut self)
        requires { IsOutlet self.old }
        ensures outlet { IsOutlet self.new }
        ensures hands { HandsOut W.held W.faults self.old self.new [] }
    {
        if self.end.is_some() {
            return;
        }
        match self.sink.offer(&self.rest[self.from..]) {
            Ok(count) => {
                self.from += count;
                settle(self);
            }
            Err(_) => self.end = Some(OutletEnd::Fault),
        }
    }
}

// Keeps bytes behind the others. Where they are too many or memory runs out that is the outlet's end.
fn keep<W: ReadySink>(outlet: &mut Outlet<W>, bytes: &[u8])
    requires outlet { IsOutlet outlet.old }
    requires open { outlet.old.end ≡ None }
    ensures outlet { IsOutlet outlet.new }
    ensures keeps { Keeps outlet.old outlet.new bytes.now }
{
    let kept = outlet.rest.len() - outlet.from;
    if bytes.len() > MOST - kept {
        outlet.end = Some(OutletEnd::Full);
    } else if outlet.rest.extend_from_slice(bytes).is_err() {
        outlet.end = Some(OutletEnd::NoMemory);
    }
}

// Takes the bytes away that were taken, where they are more than those that are kept: so each byte is moved once at most
// for each that the sink took, and the memory stays within twice the bound.
fn settle<W: ReadySink>(outlet: &mut Outlet<W>)
    requires { IsWithin outlet.old }
    ensures outlet { IsOutlet outlet.new }
    ensures settles { Settles outlet.old outlet.new }
{
    let kept = outlet.rest.len() - outlet.from;
    if kept < outlet.from {
        take_away(&mut outlet.rest, outlet.from);
        outlet.from = 0;
    }
}

// Takes away the first `gone` bytes, which are more than the others. The others move to the front.
fn take_away(bytes: &mut Vec<u8>, gone: usize)
    requires most { length bytes.old.items < gone + gone }
    requires inside { gone ≤ length bytes.old.items }
    ensures { bytes.new.items ≡ drop gone bytes.old.items }
{
    let left = bytes.len() - gone;
    let (front, back) = bytes.split_at_mut(gone);
    front[..left].copy_from_slice(back);
    bytes.truncate(left);
}
