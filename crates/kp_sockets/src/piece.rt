// A piece of a line as bytes of its own.
ghost use Rattle.std.specs.Prelude.{◌≡◌, ◌<◌, ◌≤◌, length};
ghost use Rattle.kp_worker.specs.Outside.{HeardWithin};
ghost use Rattle.kp_sockets.specs.Pieces.{Hears, IsHeard};

use kp_io::{Stream, Took};
use kp_model::Bytes;
use kp_outlet::ReadySink;
use kp_reactor::{Line, LineEnd};
use kp_worker::Heard;
use std::alloc::Global;

/// The most bytes of a piece.
const MOST: usize = 65_536;

// The bytes of a piece, or Fault where there is no memory for them.
fn heard_bytes(alloc: Global, bytes: &[u8]) -> Heard
    requires some { 0 < length bytes.now }
    requires few { length bytes.now ≤ 65536 }
    ensures { IsHeard bytes.now result }
{
    match Vec::from_slice(alloc, bytes) {
        Ok(bytes) => Heard::Bytes(Bytes::from_vec(bytes)),
        Err(_) => Heard::Fault,
    }
}

/// Takes a piece of a line, of at most 65,536 bytes.
///
/// Fault comes where the stream failed, where nothing goes out to the line any more, and where there was no memory for what came.
pub fn take_piece<R: Stream, W: ReadySink>(alloc: Global, line: &mut Line<R, W>) -> Heard
    ensures bound { HeardWithin result }
    ensures hears { Hears R.told R.faults line.old.outlet.end line.old.stream line.new.stream result }
    ensures outlet { line.new.outlet ≡ line.old.outlet }
{
    let mut room = [0u8; MOST];
    match line.take(&mut room) {
        Ok(Took::Bytes(count)) => heard_bytes(alloc, &room[..count]),
        Ok(Took::Later) => Heard::Later,
        Ok(Took::End) => Heard::End,
        Err(LineEnd::Stream | LineEnd::Outlet(_)) => Heard::Fault,
    }
}
