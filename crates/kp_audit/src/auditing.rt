//! The audit of a home.

ghost use Rattle.std.specs.Prelude.{ℕ, List, Ok, ◌≡◌, ◌≤◌, ◌++◌, IfSome, OnErr, OnOk, IsErrOf};
ghost use Rattle.kp_io.specs.Faults.{Rose};
ghost use Rattle.kp_io.specs.Homes.{home_faults};
ghost use Rattle.kp_homes.specs.Stands.{Bytes4};
ghost use Rattle.kp_homes.specs.Opening.{Holds, IsWithin};
ghost use Rattle.kp_homes.specs.Reading.{IsUntouched};
ghost use Rattle.kp_audit.specs.declared.fail.AuditFail.{AuditFail};
ghost use Rattle.kp_audit.specs.declared.fail.AuditFail.TheVariants as audit_fail;
ghost use Rattle.kp_audit.specs.Texts.{told_text};
ghost use Rattle.kp_audit.specs.Audits.{Audits, IsDoneOrNoMemory, audited};

use crate::fail::{AuditFail, fail_of};
use crate::printing::print_home;
use kp_homes::{LiveSlot, inspect};
use kp_io::{Disk, Four};

// Appends the text of what was told of a home.
fn print_found(live: Option<LiveSlot>, out: &mut Vec<u8>) -> Result<(), AuditFail>
    requires room { IfSome live (λ s. IsWithin s.kept.image s.kept.rest.items) }
    ensures ok { OnOk result (out.new.items ≡ out.old.items ++ told_text live) }
    ensures err { OnErr result (out.new.items ≡ out.old.items) }
    ensures only { (f : AuditFail) → IsErrOf result f → f ≡ audit_fail.NoMemory }
{
    let printed = print_home(&live, out);
    drop(live);
    match printed {
        Ok(()) => Ok(()),
        Err(_) => Err(AuditFail::NoMemory),
    }
}

/// Appends the text of this node's home to `out`: `blank`, or three lines. The first has the number of the live slot, the
/// generation of its journal, the number of the last start, the term and the vote, the index and the term of the image,
/// 0 without one, and the index of the last entry. The second has the numbers of nodes and sessions in the image's state,
/// which without one is the root alone, and the third those after all entries. Each line ends with a line feed.
///
/// No disk is synced, and none is written. After a refusal nothing is appended. `Damaged` comes exactly where the live slot
/// is outside the format, and tells the slot and the place of the first breach; `DiskFault` only where the home's count of
/// faults rose.
pub fn audit<H: Disk>(home: &mut Four<H>, node: u8, out: &mut Vec<u8>) -> Result<(), AuditFail>
    ensures text { (b : Bytes4) → Holds H.held home.old b → Audits result out.old.items out.new.items (audited node b) }
    ensures complete { (b : Bytes4) (t : List ℕ) → Holds H.held home.old b → audited node b ≡ Ok t → ¬ (Rose (home_faults H.faults home.old) (home_faults H.faults home.new)) → IsDoneOrNoMemory result }
    ensures err { OnErr result (out.new.items ≡ out.old.items) }
    ensures fault { IsErrOf result audit_fail.DiskFault → Rose (home_faults H.faults home.old) (home_faults H.faults home.new) }
    ensures quiet { OnOk result (home_faults H.faults home.new ≡ home_faults H.faults home.old) }
    ensures same { IsUntouched H.held H.past home.old home.new }
    ensures moment { home.old.moments ≤ home.new.moments }
{
    match inspect(*out.allocator(), home, node) {
        Ok(live) => print_found(live, out),
        Err(fail) => Err(fail_of(fail)),
    }
}
