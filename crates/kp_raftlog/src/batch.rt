//! What one message takes of a log.

ghost use Rattle.std.specs.Prelude.{◌≡◌, ◌^◌, ◌<◌, ◌≤◌, [], OnOk};
ghost use Rattle.kp_entry.specs.Log.{behind, last_index};
ghost use Rattle.kp_raftlog.specs.Kept.{AreBatchEnds};

use crate::log::RaftLog;
use kp_model::NoMemory;

/// The most entries that one message takes.
const MOST_ENTRIES: u64 = 64;

/// A message takes no further entry once those before it have this many bytes.
const ENOUGH_BYTES: usize = 1_048_576;

/// Where each entry ends that one message takes of what stands behind the index, in bytes from the first of them on.
pub(crate) fn batch_ends(log: &RaftLog, after: u64, ends: &mut Vec<usize>) -> Result<(), NoMemory>
    requires from { log.now.base ≤ after }
    requires none { ends.old.items ≡ [] }
    ensures { OnOk result (AreBatchEnds ends.new.items (behind log.now after)) }
{
    let left = log.last().saturating_sub(after);
    if left == 0 {
        return Ok(());
    }
    ends.reserve(left.min(MOST_ENTRIES) as usize)?;
    ends_behind(log, after, ends)
}

fn ends_behind(log: &RaftLog, after: u64, ends: &mut Vec<usize>) -> Result<(), NoMemory>
    requires from { log.now.base ≤ after }
    requires range { after < 2 ^ 62 }
    requires none { ends.old.items ≡ [] }
    ensures { OnOk result (AreBatchEnds ends.new.items (behind log.now after)) }
{
    let mut end: usize = 0;
    for count in 0..MOST_ENTRIES {
        if end >= ENOUGH_BYTES {
            return Ok(());
        }
        match log.bytes_at(after + count + 1) {
            None => return Ok(()),
            Some(entry) => {
                end += entry.len();
                ends.push(end)?;
            }
        }
    }
    Ok(())
}
