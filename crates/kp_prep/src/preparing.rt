ghost use Rattle.std.specs.Prelude.{◌≡◌, ◌+◌, IfOk, OnOk, OnErr};
ghost use Rattle.kp_model.specs.Good.{IsGood};
ghost use Rattle.kp_model.specs.Step.{apply};
ghost use Rattle.kp_model.specs.Touched.{touched};
ghost use Rattle.kp_cells.specs.Overlays.{IsOpen, all_begun, latest_parts, latest_state};
ghost use Rattle.kp_cells.specs.Parts.{parts_of, FitTogether};
ghost use Rattle.kp_prep.specs.Touching.{AreWithin, staged_keys};

use crate::entry::plan;
use crate::stage::carry_out;
use kp_act::Prepared;
use kp_cells::Cells;
use kp_model::{Entry, NoMemory};
use std::alloc::Global;

/// Stages exactly what an entry of this index changes, and gives its answer: its reply and its events. A layer is
/// open, with nothing staged in it. Only the paths and the sessions that the entry touches are written at, and the
/// next session number. Without memory nothing is staged.
pub fn prepare(
    alloc: Global,
    cells: &mut Cells,
    index: u64,
    entry: &Entry,
) -> Result<Prepared, NoMemory>
    requires fresh { cells.old ≡ all_begun cells.old }
    requires fits { FitTogether (latest_parts cells.old) }
    requires good { IsGood (latest_state cells.old) }
    requires next { (latest_state cells.old).applied + 1 ≡ index }
    ensures reply { IfOk result (λ p. p.reply ≡ (apply (latest_state cells.old) entry.now).reply) }
    ensures events { IfOk result (λ p. p.events ≡ (apply (latest_state cells.old) entry.now).events) }
    ensures stands { OnOk result (latest_parts cells.new ≡ parts_of (apply (latest_state cells.old) entry.now).state) }
    ensures beneath { OnOk result (all_begun cells.new ≡ cells.old) }
    ensures touches { OnOk result (AreWithin (touched (latest_state cells.old) entry.now) (staged_keys cells.new)) }
    ensures open { OnOk result (IsOpen cells.new) }
    ensures err { OnErr result (cells.new ≡ cells.old) }
{
    let mark = cells.mark();
    let found = plan(alloc, &cells.latest(), index, entry)?;
    match carry_out(cells, found) {
        Ok(prepared) => Ok(prepared),
        Err(refused) => {
            cells.undo_to(mark);
            Err(refused)
        }
    }
}
