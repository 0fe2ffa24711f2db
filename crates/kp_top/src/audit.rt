//! The audit of a node's home.

ghost use Rattle.std.specs.Prelude.{◌≡◌, ◌≤◌, ◌++◌, ℕ, List, Ok, Err, IfOk, IsErrOf, OnErr, OnOk, MatchResult};
ghost use Rattle.kp_io.specs.Faults.{one_more, Rose};
ghost use Rattle.kp_io.specs.Homes.{home_faults};
ghost use Rattle.kp_homes.specs.declared.fail.HomeFail.TheVariants as home_fail;
ghost use Rattle.kp_homes.specs.Stands.{Bytes4};
ghost use Rattle.kp_homes.specs.Opening.{Holds};
ghost use Rattle.kp_homes.specs.Reading.{IsUntouched};
ghost use Rattle.kp_audit.specs.declared.fail.AuditFail.TheVariants as audit_fail;
ghost use Rattle.kp_audit.specs.Audits.{Audits, audited};
ghost use Rattle.kp_top.specs.Output.{WroteAll, WrotePart};
ghost use Rattle.kp_top.specs.Run.{IsBeforeLines, IsDoneOrNoMemory};
ghost use Rattle.kp_top.specs.Auditing.{home_of, with_home, text_or_nothing, Refuses, status_of, IsOfAudit, IsBehindHome, IsDamagedOrNoMemory};

use crate::status::Status;
use crate::stream::write_all;
use kp_audit::{AuditFail, audit};
use kp_io::{Disk, Seven, Sink};
use std::alloc::Global;

/// The status of an audit that has no text.
fn status_of(fail: AuditFail) -> Status
    ensures { result ≡ status_of fail }
{
    match fail {
        AuditFail::DiskFault => Status::DiskFault,
        AuditFail::Damaged { slot, at } => Status::Damaged { slot, at },
        AuditFail::NoMemory => Status::NoMemory,
    }
}

/// Appends the text of the home of a node from 1 to 7. No other home is touched.
fn audit_in<H: Disk>(homes: &mut Seven<H>, node: u8, out: &mut Vec<u8>) -> Result<(), AuditFail>
    requires first { 1 ≤ node }
    requires last { node ≤ 7 }
    ensures text { (b : Bytes4) → Holds H.held (home_of node homes.old) b → Audits result out.old.items out.new.items (audited node b) }
    ensures fault { IsErrOf result audit_fail.DiskFault → Rose (home_faults H.faults (home_of node homes.old)) (home_faults H.faults (home_of node homes.new)) }
    ensures quiet { OnOk result (home_faults H.faults (home_of node homes.new) ≡ home_faults H.faults (home_of node homes.old)) }
    ensures same { IsUntouched H.held H.past (home_of node homes.old) (home_of node homes.new) }
    ensures others { homes.new ≡ with_home node (home_of node homes.new) homes.old }
{
    match node {
        1 => audit(&mut homes.one, 1, out),
        2 => audit(&mut homes.two, 2, out),
        3 => audit(&mut homes.three, 3, out),
        4 => audit(&mut homes.four, 4, out),
        5 => audit(&mut homes.five, 5, out),
        6 => audit(&mut homes.six, 6, out),
        _ => audit(&mut homes.seven, 7, out),
    }
}

/// The text of the home of a node from 1 to 7.
fn audit_bytes<H: Disk>(alloc: Global, homes: &mut Seven<H>, node: u8) -> Result<Vec<u8>, AuditFail>
    requires first { 1 ≤ node }
    requires last { node ≤ 7 }
    ensures text { (b : Bytes4) → Holds H.held (home_of node homes.old) b → MatchResult result (λ v. audited node b ≡ Ok v.items) (λ e. Refuses e (audited node b)) }
    ensures fault { result ≡ Err audit_fail.DiskFault → Rose (home_faults H.faults (home_of node homes.old)) (home_faults H.faults (home_of node homes.new)) }
    ensures quiet { IfOk result (λ _. home_faults H.faults (home_of node homes.new) ≡ home_faults H.faults (home_of node homes.old)) }
    ensures same { IsUntouched H.held H.past (home_of node homes.old) (home_of node homes.new) }
    ensures others { homes.new ≡ with_home node (home_of node homes.new) homes.old }
{
    let mut text = Vec::new(alloc);
    match audit_in(homes, node, &mut text) {
        Ok(()) => Ok(text),
        Err(fail) => {
            drop(text);
            Err(fail)
        }
    }
}

/// Writes the text of the home of a node from 1 to 7. Nothing is written of a home that is damaged, or whose disk failed.
pub fn run_audit<W: Sink, H: Disk>(
    alloc: Global,
    node: u8,
    homes: &mut Seven<H>,
    output: &mut W,
) -> Status
    requires first { 1 ≤ node }
    requires last { node ≤ 7 }
    ensures done { (b : Bytes4) → Holds H.held (home_of node homes.old) b → result ≡ Status.Done
        → (text : List ℕ) × (audited node b ≡ Ok text) × WroteAll (W.held output.old) (W.held output.new) text }
    ensures damaged { (b : Bytes4) (slot at : ℕ) → Holds H.held (home_of node homes.old) b → result ≡ Status.Damaged slot at → audited node b ≡ Err (home_fail.Damaged slot at) }
    ensures part { (b : Bytes4) → Holds H.held (home_of node homes.old) b → WrotePart (W.held output.old) (W.held output.new) (text_or_nothing (audited node b)) }
    ensures nothing { IsBeforeLines result → output.new ≡ output.old }
    ensures disk_fault { result ≡ Status.DiskFault → Rose (home_faults H.faults (home_of node homes.old)) (home_faults H.faults (home_of node homes.new)) }
    ensures no_disk_fault { IsBehindHome result → home_faults H.faults (home_of node homes.new) ≡ home_faults H.faults (home_of node homes.old) }
    ensures fault { result ≡ Status.WriteFault → W.faults output.new ≡ one_more (W.faults output.old) }
    ensures quiet { (result ≡ Status.WriteFault → ⊥) → W.faults output.new ≡ W.faults output.old }
    ensures same { IsUntouched H.held H.past (home_of node homes.old) (home_of node homes.new) }
    ensures others { homes.new ≡ with_home node (home_of node homes.new) homes.old }
    ensures statuses { IsOfAudit result }
    ensures complete { (b : Bytes4) (text : List ℕ) → Holds H.held (home_of node homes.old) b → audited node b ≡ Ok text
        → ¬ (Rose (home_faults H.faults (home_of node homes.old)) (home_faults H.faults (home_of node homes.new))) → ¬ (Rose (W.faults output.old) (W.faults output.new)) → IsDoneOrNoMemory result }
    ensures complete_damaged { (b : Bytes4) (slot at : ℕ) → Holds H.held (home_of node homes.old) b → audited node b ≡ Err (home_fail.Damaged slot at)
        → ¬ (Rose (home_faults H.faults (home_of node homes.old)) (home_faults H.faults (home_of node homes.new))) → IsDamagedOrNoMemory slot at result }
{
    let text = match audit_bytes(alloc, homes, node) {
        Ok(text) => text,
        Err(fail) => return status_of(fail),
    };
    match write_all(output, text.as_slice()) {
        Ok(()) => Status::Done,
        Err(_) => Status::WriteFault,
    }
}
