// Writing what was drained.
ghost use Rattle.std.specs.Prelude.{OnOk, OnErr, length};
ghost use Rattle.kp_io.specs.Faults.{HasCause};
ghost use Rattle.kp_dispatch.specs.Output.{OutTells, WroteAll, WrotePart};

use crate::ends::ConnEnd;
use kp_event::OutPiece;
use kp_io::{Failed, Sink};

// Writes all of these bytes.
fn write_all<W: Sink>(output: &mut W, bytes: &[u8]) -> Result<(), Failed>
    ensures ok { OnOk result (WroteAll (W.held output.old) (W.held output.new) bytes.now) }
    ensures err { OnErr result (WrotePart (W.held output.old) (W.held output.new) bytes.now) }
    ensures cause { HasCause (W.faults output.old) (W.faults output.new) result }
{
    let mut at = 0;
    while at < bytes.len() {
        at += output.write(&bytes[at..])?;
    }
    Ok(())
}

/// Writes what was ready for a connection. The answer is how the connection ends, where it ends for that.
pub(crate) fn write_out<W: Sink>(output: &mut W, out: Option<OutPiece>) -> Result<(), ConnEnd>
    ensures { OutTells (W.held output.old) (W.held output.new) (W.faults output.old) (W.faults output.new) out result }
{
    let Some(OutPiece { bytes, over, lost }) = out else {
        return Err(ConnEnd::Ended);
    };
    if write_all(output, bytes.as_slice()).is_err() {
        return Err(ConnEnd::WriteFault);
    }
    if over && lost {
        return Err(ConnEnd::NoMemory);
    }
    if over {
        return Err(ConnEnd::Ended);
    }
    Ok(())
}
