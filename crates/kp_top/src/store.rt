ghost use Rattle.std.specs.Prelude.{◌≡◌, ◌<◌, ◌≤◌, ℕ, length, None, Some};
ghost use Rattle.kp_io.specs.Faults.{one_more};
ghost use Rattle.kp_model.specs.Store.{last as last_of};
ghost use Rattle.kp_top.specs.Output.{WroteAll, WrotePart};
ghost use Rattle.kp_top.specs.Transcript.{blank, transcript, bad_line};
ghost use Rattle.kp_top.specs.Run.{TakenAs, IsOfLines};

use crate::input_lines::next_line;
use crate::status::Status;
use crate::stream::write_all;
use crate::taken::Taken;
use crate::work::Work;
use kp_io::Sink;
use kp_text::{LineFail, read_store_line};
use std::alloc::Global;

/// Takes the n-th line and writes what it prints.
fn take_line<W: Sink>(alloc: Global, work: &mut Work, n: u64, text: &[u8], output: &mut W) -> Taken
    requires room { last_of work.old.store < n }
    requires number { n ≤ 67108865 }
    ensures told { TakenAs work.old work.new n text.now (W.held output.old) (W.held output.new) result }
    ensures fault { result ≡ Taken.WriteFault → W.faults output.new ≡ one_more (W.faults output.old) }
    ensures quiet { (result ≡ Taken.WriteFault → ⊥) → W.faults output.new ≡ W.faults output.old }
{
    let line = match read_store_line(alloc, text) {
        Ok(line) => line,
        Err(LineFail::BadLine) => return Taken::Bad,
        Err(LineFail::NoMemory) => return Taken::NoMemory,
    };
    let mut out = match work.turn(n, line) {
        Ok(out) => out,
        Err(_) => return Taken::NoMemory,
    };
    if out.push(b'\n').is_err() {
        return Taken::NoMemory;
    }
    match write_all(output, out.as_slice()) {
        Ok(()) => Taken::Printed,
        Err(_) => Taken::WriteFault,
    }
}

/// Takes the lines of a text in order, up to the first that is none.
fn take_lines<W: Sink>(alloc: Global, work: &mut Work, text: &[u8], output: &mut W) -> Status
    requires blank { work.old ≡ blank }
    requires limit { length text.now ≤ 67108864 }
    ensures done { result ≡ Status.Done → (bad_line text.now ≡ None) × WroteAll (W.held output.old) (W.held output.new) (transcript text.now) }
    ensures bad { (n : ℕ) → result ≡ Status.BadLine n → (bad_line text.now ≡ Some n) × WroteAll (W.held output.old) (W.held output.new) (transcript text.now) }
    ensures part { WrotePart (W.held output.old) (W.held output.new) (transcript text.now) }
    ensures fault { result ≡ Status.WriteFault → W.faults output.new ≡ one_more (W.faults output.old) }
    ensures quiet { (result ≡ Status.WriteFault → ⊥) → W.faults output.new ≡ W.faults output.old }
    ensures others { IsOfLines result }
{
    let mut rest = text;
    let mut n = 1u64;
    while let Some((line, after)) = next_line(rest) {
        match take_line(alloc, work, n, line, output) {
            Taken::Printed => {}
            Taken::Bad => return Status::BadLine { n },
            Taken::WriteFault => return Status::WriteFault,
            Taken::NoMemory => return Status::NoMemory,
        }
        rest = after;
        n += 1;
    }
    Status::Done
}

/// Takes the lines of a text in order, on the empty store, up to the first that is none.
pub fn run_store<W: Sink>(alloc: Global, text: &[u8], output: &mut W) -> Status
    requires { length text.now ≤ 67108864 }
    ensures done { result ≡ Status.Done → (bad_line text.now ≡ None) × WroteAll (W.held output.old) (W.held output.new) (transcript text.now) }
    ensures bad { (n : ℕ) → result ≡ Status.BadLine n → (bad_line text.now ≡ Some n) × WroteAll (W.held output.old) (W.held output.new) (transcript text.now) }
    ensures part { WrotePart (W.held output.old) (W.held output.new) (transcript text.now) }
    ensures fault { result ≡ Status.WriteFault → W.faults output.new ≡ one_more (W.faults output.old) }
    ensures quiet { (result ≡ Status.WriteFault → ⊥) → W.faults output.new ≡ W.faults output.old }
    ensures others { IsOfLines result }
{
    match Work::new(alloc) {
        Ok(mut work) => take_lines(alloc, &mut work, text, output),
        Err(_) => Status::NoMemory,
    }
}
