//! Reading a disk.

ghost use Rattle.std.specs.Prelude.{ℕ, List, Some, ◌≡◌, ◌+◌, ◌^◌, ◌<◌, ◌≤◌, length, take, drop, IfOk, OnOk, IfSome, IsErrOf};
ghost use Rattle.kp_io.specs.Faults.{HasCause, Rose};
ghost use Rattle.kp_journal.specs.declared.fail.JournalFail.TheVariants as fail;
ghost use Rattle.kp_journal.specs.Heads.{open_generation};
ghost use Rattle.kp_journal.specs.Answers.{IsOfReading};

use crate::fail::JournalFail;
use crate::head::{HEAD_LEN, generation_of, is_open};
use kp_io::{Disk, Failed};
use kp_model::NoMemory;
use std::alloc::Global;

/// Reads all that the disk holds.
pub(crate) fn read_disk<D: Disk>(
    alloc: Global,
    disk: &mut D,
    moments: &mut u64,
) -> Result<Vec<u8>, JournalFail>
    ensures whole { IfOk result (λ v. IfSome (D.held disk.old) (λ xs. v.items ≡ xs)) }
    ensures fault { IsErrOf result fail.DiskFault → Rose (D.faults disk.old) (D.faults disk.new) }
    ensures quiet { OnOk result (D.faults disk.new ≡ D.faults disk.old) }
    ensures only { (f : JournalFail) → IsErrOf result f → IsOfReading f }
    ensures keeps { D.held disk.new ≡ D.held disk.old }
    ensures past { D.past disk.new ≡ D.past disk.old }
    ensures moment { moments.old ≤ moments.new }
{
    let len = disk.len(moments)?;
    let mut bytes = zeros(alloc, len as usize)?;
    let filled = match read_front(disk, &mut bytes, moments) {
        Ok(filled) => filled,
        Err(_) => {
            drop(bytes);
            return Err(JournalFail::DiskFault);
        }
    };
    bytes.truncate(filled);
    Ok(bytes)
}

// So many zeros.
fn zeros(alloc: Global, count: usize) -> Result<Vec<u8>, NoMemory>
    ensures { IfOk result (λ v. length v.items ≡ count) }
{
    Ok(vec![in alloc; 0u8; count]?)
}

/// Copies the first bytes of the disk to the front of `into`, as many as there are and fit, and answers how many. Takes no
/// memory.
pub fn read_front<D: Disk>(
    disk: &mut D,
    into: &mut [u8],
    moments: &mut u64,
) -> Result<usize, Failed>
    ensures bytes { IfOk result (λ n. IfSome (D.held disk.old) (λ xs. take n into.new ≡ take (length into.old) xs)) }
    ensures bound { IfOk result (λ n. n ≤ length into.new) }
    ensures len { length into.new ≡ length into.old }
    ensures cause { HasCause (D.faults disk.old) (D.faults disk.new) result }
    ensures keeps { D.held disk.new ≡ D.held disk.old }
    ensures past { D.past disk.new ≡ D.past disk.old }
    ensures moment { moments.old ≤ moments.new }
{
    let mut filled = 0;
    while filled < into.len() {
        let count = disk.read(filled as u64, &mut into[filled..], moments)?;
        if count == 0 {
            return Ok(filled);
        }
        filled += count;
    }
    Ok(filled)
}

/// The generation of the journal that the disk holds, as it stands, where its head is open; None where it is not. Reads no
/// more than the head.
pub fn open_generation<D: Disk>(disk: &mut D, moments: &mut u64) -> Result<Option<u64>, Failed>
    ensures open { IfOk result (λ o. IfSome (D.held disk.old) (λ xs. o ≡ open_generation xs)) }
    ensures cause { HasCause (D.faults disk.old) (D.faults disk.new) result }
    ensures keeps { D.held disk.new ≡ D.held disk.old }
    ensures past { D.past disk.new ≡ D.past disk.old }
    ensures moment { moments.old ≤ moments.new }
{
    let mut front = [0; HEAD_LEN + 1];
    let filled = read_front(disk, &mut front, moments)?;
    Ok(generation_in(&front[..filled]))
}

// The generation in the first bytes of a journal, where its head is open.
fn generation_in(front: &[u8]) -> Option<u64>
    ensures { result ≡ open_generation front.now }
{
    if is_open(front) {
        Some(generation_of(front))
    } else {
        None
    }
}
