ghost use Rattle.std.specs.Prelude.{◌≡◌, ◌≤◌, IfOk, IsTrue, OnErr, Some};
ghost use Rattle.kp_load.specs.Load.{begun, written, create_in, child_line_in, set_in, delete_in, line_in, last_kept, after, is_load_line, IsLoadLine};

use crate::draw::{bytes_in, child_in, kind_in, next_number, path_in, place_in};
use kp_model::NoMemory;
use kp_model::limits::ANY_VERSION;
use kp_text::{Command, Operation, StoreLine};
use std::alloc::Global;
use std::marker::Model;

/// The lines of a load: one that opens a session, as many as were asked for that are drawn one behind the other, and then
/// commits until nothing is unapplied.
#[derive(Drop)]
pub struct LoadLines {
    alloc: Global,
    opens: bool,
    left: u32,
    number: u64,
}

impl Model for LoadLines {
    ghost use Rattle.kp_load.specs.Load.{Load, load_code};

    ghost Value = { Load };

    ghost coded = { load_code };

    ghost view = { λ l. record { opens = l.opens; left = l.left; number = l.number } };
}

// A command of session 1.
fn write(operation: Operation) -> StoreLine
    ensures line { result ≡ written operation }
    ensures grammar { IsTrue (is_load_line result) }
{
    StoreLine::Write {
        session: 1,
        command: Command::Operation(operation),
    }
}

#[tactic(auto, unfolding(crate::specs::Load::create_in))]
fn create(alloc: Global, x: u64) -> Result<StoreLine, NoMemory>
    ensures line { IfOk result (λ l. l ≡ create_in x) }
    ensures grammar { IfOk result (λ l. IsTrue (is_load_line l)) }
{
    let path = path_in(alloc, x)?;
    Ok(write(Operation::Create {
        path,
        flags: 0,
        bytes: bytes_in(alloc, x)?,
        acl: None,
    }))
}

#[tactic(auto, unfolding(crate::specs::Load::child_line_in))]
fn create_child(alloc: Global, x: u64) -> Result<StoreLine, NoMemory>
    ensures line { IfOk result (λ l. l ≡ child_line_in x) }
    ensures grammar { IfOk result (λ l. IsTrue (is_load_line l)) }
{
    let path = child_in(alloc, x)?;
    Ok(write(Operation::Create {
        path,
        flags: 2,
        bytes: bytes_in(alloc, x)?,
        acl: None,
    }))
}

#[tactic(auto, unfolding(crate::specs::Load::set_in))]
fn set(alloc: Global, x: u64) -> Result<StoreLine, NoMemory>
    ensures line { IfOk result (λ l. l ≡ set_in x) }
    ensures grammar { IfOk result (λ l. IsTrue (is_load_line l)) }
{
    let path = path_in(alloc, x)?;
    Ok(write(Operation::Set {
        path,
        bytes: bytes_in(alloc, x)?,
        version: ANY_VERSION,
    }))
}

#[tactic(auto, unfolding(crate::specs::Load::delete_in))]
fn delete(alloc: Global, x: u64) -> Result<StoreLine, NoMemory>
    ensures line { IfOk result (λ l. l ≡ delete_in x) }
    ensures grammar { IfOk result (λ l. IsTrue (is_load_line l)) }
{
    Ok(write(Operation::Delete {
        path: path_in(alloc, x)?,
        version: ANY_VERSION,
    }))
}

// The index up to which a truncation keeps: up to three entries go.
fn last_kept(x: u64, applied: u64, last: u64) -> u64
    ensures { result ≡ last_kept x applied last }
{
    applied.max(last.saturating_sub(place_in(x) % 4))
}

// The line that is drawn.
#[tactic(auto, unfolding(crate::specs::Load::line_in))]
fn line_in(alloc: Global, x: u64, applied: u64, last: u64) -> Result<StoreLine, NoMemory>
    ensures line { IfOk result (λ l. l ≡ line_in x applied last) }
    ensures grammar { IfOk result (λ l. IsTrue (is_load_line l)) }
{
    let kind = kind_in(x);
    if kind < 6 {
        create(alloc, x)
    } else if kind < 9 {
        set(alloc, x)
    } else if kind < 11 {
        delete(alloc, x)
    } else if kind < 12 {
        create_child(alloc, x)
    } else if kind < 15 {
        Ok(StoreLine::Commit)
    } else {
        Ok(StoreLine::Truncate {
            last: last_kept(x, applied, last),
        })
    }
}

impl LoadLines {
    /// The lines of a load: `count` of them are drawn, from the number behind `start` on.
    pub fn new(alloc: Global, start: u64, count: u32) -> LoadLines
        ensures { result ≡ begun start count }
    {
        LoadLines {
            alloc,
            opens: true,
            left: count,
            number: start,
        }
    }

    /// The next line for a store whose applied and last index these are, or None behind the last. After an error the same
    /// line is still to come.
    #[tactic(auto, unfolding(crate::specs::Load::after))]
    pub fn next(&mut self, applied: u64, last: u64) -> Result<Option<StoreLine>, NoMemory>
        ensures line { IfOk result (λ l. l ≡ (after self.old applied last).line) }
        ensures rest { IfOk result (λ _. self.new ≡ (after self.old applied last).rest) }
        ensures grammar { IfOk result (λ l. IsLoadLine l) }
        ensures err { OnErr result (self.new ≡ self.old) }
    {
        if self.opens {
            self.opens = false;
            return Ok(Some(StoreLine::Open {
                timeout: 30_000,
                passwd: [0; 16],
            }));
        }
        if self.left == 0 {
            return Ok(if applied < last {
                Some(StoreLine::Commit)
            } else {
                None
            });
        }
        let number = next_number(self.number);
        let line = line_in(self.alloc, number, applied, last)?;
        self.number = number;
        self.left -= 1;
        Ok(Some(line))
    }
}
