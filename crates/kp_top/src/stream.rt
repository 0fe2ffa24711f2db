ghost use Rattle.std.specs.Prelude.{◌≡◌, ◌≤◌, [], length, IfOk, OnOk, OnErr, Err};
ghost use Rattle.std.specs.Io.KnownBytes.{Consumes, IsAtEnd};
ghost use Rattle.kp_io.specs.Faults.{HasCause, one_more};
ghost use Rattle.kp_top.specs.Output.{WroteAll, WrotePart, TookMore, TookWithin};

use kp_io::{Failed, Sink, Source};
use std::alloc::{AllocError, Global};

/// The most bytes that are read.
const INPUT_LIMIT: usize = 67108864;

/// How many bytes a read asks for.
const PIECE: usize = 65536;

/// Why the input isn't there.
pub enum ReadEnd {
    /// The source failed.
    Fault,
    /// It gave more than the limit.
    TooLong,
    /// Memory ran out.
    NoMemory,
}

/// So many zeros.
fn zeros(alloc: Global, count: usize) -> Result<Vec<u8>, AllocError>
    ensures { IfOk result (λ v. length v.items ≡ count) }
{
    vec![in alloc; 0u8; count]
}

/// Reads a source to its end.
pub fn read_all<S: Source>(alloc: Global, input: &mut S) -> Result<Vec<u8>, ReadEnd>
    ensures whole { IfOk result (λ v. Consumes (S.left input.old) (S.left input.new) v.items × IsAtEnd (S.left input.new) × (length v.items ≤ 67108864)) }
    ensures too_long { result ≡ Err ReadEnd.TooLong → TookMore (S.left input.old) (S.left input.new) }
    ensures within { (result ≡ Err ReadEnd.TooLong → ⊥) → TookWithin (S.left input.old) (S.left input.new) }
    ensures fault { result ≡ Err ReadEnd.Fault → S.faults input.new ≡ one_more (S.faults input.old) }
    ensures quiet { (result ≡ Err ReadEnd.Fault → ⊥) → S.faults input.new ≡ S.faults input.old }
{
    let Ok(mut piece) = zeros(alloc, PIECE) else {
        return Err(ReadEnd::NoMemory);
    };
    let mut text = Vec::new(alloc);
    loop {
        let count = match input.read(&mut piece) {
            Ok(count) => count,
            Err(_) => return Err(ReadEnd::Fault),
        };
        if count == 0 {
            return Ok(text);
        }
        if count > INPUT_LIMIT - text.len() {
            return Err(ReadEnd::TooLong);
        }
        if text.extend_from_slice(&piece[..count]).is_err() {
            return Err(ReadEnd::NoMemory);
        }
    }
}

/// Writes all of a text.
pub fn write_all<W: Sink>(output: &mut W, bytes: &[u8]) -> Result<(), Failed>
    ensures ok { OnOk result (WroteAll (W.held output.old) (W.held output.new) bytes.now) }
    ensures err { OnErr result (WrotePart (W.held output.old) (W.held output.new) bytes.now) }
    ensures cause { HasCause (W.faults output.old) (W.faults output.new) result }
{
    let mut at = 0;
    while at < bytes.len() {
        at += output.write(&bytes[at..])?;
    }
    Ok(())
}
