ghost use Rattle.std.specs.Prelude.{◌≡◌, ◌≤◌, true, string_bytes, IfOk};
ghost use Rattle.kp_io.specs.Faults.{one_more};
ghost use Rattle.kp_top.specs.Output.{WroteAll, WrotePart};
ghost use Rattle.kp_top.specs.Transcript.{blank};
ghost use Rattle.kp_top.specs.Loading.{loaded, tally_text, asked_text as asked_bytes, entries_text as entries_bytes, ends_text as ends_bytes, load_text};
ghost use Rattle.kp_load.specs.Load.{begun};
ghost use Rattle.kp_top.specs.Run.{IsOfLoad};

use crate::status::Status;
use crate::stream::write_all;
use crate::tally::Tally;
use crate::work::Work;
use kp_io::Sink;
use kp_load::LoadLines;
use kp_model::NoMemory;
use std::alloc::Global;

/// Takes all lines of a load on the empty store, and counts what comes of them.
fn take_all(work: &mut Work, lines: &mut LoadLines) -> Result<Tally, NoMemory>
    requires blank { work.old ≡ blank }
    requires opens { lines.old.opens ≡ true }
    requires few { lines.old.left ≤ 4294967295 }
    ensures work { IfOk result (λ _. work.new ≡ (loaded lines.old.number lines.old.left).work) }
    ensures tally { IfOk result (λ t. t ≡ (loaded lines.old.number lines.old.left).tally) }
{
    let mut tally = Tally::nothing();
    let mut n = 1u64;
    while let Some(line) = work.next_of(lines)? {
        tally = work.count(n, line, tally)?;
        n += 1;
    }
    Ok(tally)
}

#[tactic(auto, unfolding(crate::specs::Loading::asked_text))]
fn asked_text(alloc: Global, start: u64, count: u32) -> Result<String, NoMemory>
    ensures { IfOk result (λ s. string_bytes s ≡ asked_bytes start count) }
{
    Ok(format!(in alloc; "load {start} {count}")?)
}

#[tactic(auto, unfolding(crate::specs::Loading::entries_text))]
fn entries_text(alloc: Global, tally: Tally) -> Result<String, NoMemory>
    ensures { IfOk result (λ s. string_bytes s ≡ entries_bytes tally) }
{
    let (made, good, bad) = (tally.made, tally.good, tally.bad);
    Ok(format!(in alloc; " pre={made} ok={good} err={bad}")?)
}

#[tactic(auto, unfolding(crate::specs::Loading::ends_text))]
fn ends_text(alloc: Global, tally: Tally, nodes: u64) -> Result<String, NoMemory>
    ensures { IfOk result (λ s. string_bytes s ≡ ends_bytes tally nodes) }
{
    let (done, cut) = (tally.done, tally.cut);
    Ok(format!(in alloc; " done={done} cut={cut} nodes={nodes}\n")?)
}

/// The text of what was counted, and of the nodes that are left.
fn tally_bytes(
    alloc: Global,
    start: u64,
    count: u32,
    tally: Tally,
    nodes: u64,
) -> Result<Vec<u8>, NoMemory>
    ensures { IfOk result (λ v. v.items ≡ tally_text start count tally nodes) }
{
    let asked = asked_text(alloc, start, count)?;
    let entries = entries_text(alloc, tally)?;
    let ends = ends_text(alloc, tally, nodes)?;
    let text = format!(in alloc; "{asked}{entries}{ends}")?;
    Ok(text.into_bytes())
}

/// Runs a load, and answers its line.
fn load_bytes(alloc: Global, start: u64, count: u32) -> Result<Vec<u8>, NoMemory>
    ensures { IfOk result (λ v. v.items ≡ load_text start count) }
{
    let mut work = Work::new(alloc)?;
    let mut lines = LoadLines::new(alloc, start, count);
    let tally = take_all(&mut work, &mut lines);
    let nodes = work.node_count();
    drop(work);
    tally_bytes(alloc, start, count, tally?, nodes)
}

/// Runs the lines of a load on the empty store, and writes the line of what was counted.
pub fn run_load<W: Sink>(alloc: Global, start: u64, count: u32, output: &mut W) -> Status
    ensures done { result ≡ Status.Done → WroteAll (W.held output.old) (W.held output.new) (load_text start count) }
    ensures part { WrotePart (W.held output.old) (W.held output.new) (load_text start count) }
    ensures fault { result ≡ Status.WriteFault → W.faults output.new ≡ one_more (W.faults output.old) }
    ensures quiet { (result ≡ Status.WriteFault → ⊥) → W.faults output.new ≡ W.faults output.old }
    ensures others { IsOfLoad result }
{
    let Ok(text) = load_bytes(alloc, start, count) else {
        return Status::NoMemory;
    };
    match write_all(output, text.as_slice()) {
        Ok(()) => Status::Done,
        Err(_) => Status::WriteFault,
    }
}
