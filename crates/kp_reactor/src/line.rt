// One connection: a stream, and an outlet for what goes out to it.
ghost use Rattle.std.specs.Prelude.{◌≡◌, ◌<◌, ◌&&◌, not, [], None, true, length, IfOk};
ghost use Rattle.kp_io.specs.Streams.{TookWithin};
ghost use Rattle.kp_outlet.specs.Outlets.{HandsOut, IsOutlet, has_rest, kept};
ghost use Rattle.kp_reactor.specs.Takes.{LineTakes};

use kp_io::{Stream, Took};
use kp_outlet::{Outlet, OutletEnd, ReadySink};
use std::alloc::Global;

/// Why nothing more comes of a line.
#[derive(Clone, Copy, Drop)]
pub enum LineEnd {
    /// The stream failed.
    Stream,

    /// Nothing more goes out to it, for this reason.
    Outlet(OutletEnd),
}

/// One connection: a stream from which bytes come, and a sink, with what it has yet to take.
#[derive(Drop)]
pub struct Line<R, W> {
    stream: R,
    outlet: Outlet<W>,
    ghost whole: { IsOutlet outlet },
}

impl<R: Stream, W: ReadySink> Line<R, W> {
    /// A line that keeps nothing.
    pub fn new(alloc: Global, stream: R, sink: W) -> Line<R, W>
        ensures stream { result.stream ≡ stream }
        ensures sink { result.outlet.sink ≡ sink }
        ensures kept { kept result.outlet ≡ [] }
        ensures open { result.outlet.end ≡ None }
    {
        Line {
            stream,
            outlet: Outlet::new(alloc, sink),
        }
    }

    /// Lends the stream.
    pub fn stream(&self) -> &R
        ensures { result.now ≡ self.now.stream }
    {
        &self.stream
    }

    /// Whether there are bytes that the sink has yet to take.
    pub fn has_rest(&self) -> bool
        ensures { result ≡ has_rest self.now.outlet }
    {
        self.outlet.has_rest()
    }

    /// Why nothing goes out to it any more, or None where something may.
    pub fn end(&self) -> Option<OutletEnd>
        ensures { result ≡ self.now.outlet.end }
    {
        self.outlet.end()
    }

    /// Takes what comes next of the stream to the front of `into`. Of a line to which nothing goes out any more nothing is taken.
    ///
    /// `Stream` comes exactly where the stream failed, and `Outlet` exactly where nothing goes out any more.
    pub fn take(&mut self, into: &mut [u8]) -> Result<Took, LineEnd>
        requires { 0 < length into.old }
        ensures bound { IfOk result (λ took. TookWithin took (length into.new)) }
        ensures takes { LineTakes R.told R.faults self.old.outlet.end self.old.stream self.new.stream result into.new }
        ensures outlet { self.new.outlet ≡ self.old.outlet }
    {
        if let Some(end) = self.outlet.end() {
            return Err(LineEnd::Outlet(end));
        }
        match self.stream.take(into) {
            Ok(took) => Ok(took),
            Err(_) => Err(LineEnd::Stream),
        }
    }

    /// Hands bytes out. What the sink can't take now is kept, or nothing goes out any more from then on.
    pub fn hand(&mut self, bytes: &[u8])
        ensures hands { HandsOut W.held W.faults self.old.outlet self.new.outlet bytes.now }
        ensures stream { self.new.stream ≡ self.old.stream }
    {
        self.outlet.hand(bytes);
    }

    /// Lets go out what is kept and can go out now. The answer is whether something was kept, and nothing is any more.
    pub fn flow(&mut self) -> bool
        ensures hands { HandsOut W.held W.faults self.old.outlet self.new.outlet [] }
        ensures freed { result ≡ (has_rest self.old.outlet && not (has_rest self.new.outlet)) }
        ensures stream { self.new.stream ≡ self.old.stream }
    {
        let kept = self.outlet.has_rest();
        self.outlet.push_on();
        kept && !self.outlet.has_rest()
    }
}
