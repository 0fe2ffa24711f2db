//! Writing the numbers of a node.

ghost use Rattle.std.specs.Prelude.{◌≡◌, OnOk};
ghost use Rattle.kp_jute.specs.Form.{Wrote};
ghost use Rattle.kp_entry.specs.Fields.{limited, numbers};
ghost use Rattle.kp_snapshot.specs.Rules.{may_own};
ghost use Rattle.kp_snapshot.specs.Images.{taken, smalls, indexes, times, versions, figures};
ghost use Rattle.kp_snapshot.specs.Ups.{AreRising};
ghost use Rattle.kp_snapshot.specs.Nodes.{figures_of};

use crate::figures::may_own;
use kp_entry::{put_number, put_word};
use kp_model::limits::LAST_COUNT;
use kp_model::{Meta, NoMemory};

/// Writes the numbers of a node: indexes, times, versions, owner and the number of children ever made. `ids` are the
/// numbers of the sessions, ascending. Bytes to which they could not be written are to be dropped.
pub(crate) fn put_figures(
    out: &mut Vec<u8>,
    meta: &Meta,
    index: u64,
    ids: &[u64],
    is_root: bool,
) -> Result<(), NoMemory>
    requires { AreRising ids.now }
    ensures { OnOk result (Wrote (figures index (may_own ids.now is_root)) (figures_of meta.now) out.old.items out.new.items) }
{
    put_indexes(out, meta, index)?;
    put_times(out, meta)?;
    put_versions(out, meta)?;
    put_owner(out, meta.owner, ids, is_root)?;
    put_small(out, meta.created)
}

// Writes czxid, mzxid and pzxid.
fn put_indexes(out: &mut Vec<u8>, meta: &Meta, index: u64) -> Result<(), NoMemory>
    ensures { OnOk result (Wrote (indexes index) (meta.now.czxid, (meta.now.mzxid, meta.now.pzxid)) out.old.items out.new.items) }
{
    put_taken(out, meta.czxid, index)?;
    put_taken(out, meta.mzxid, index)?;
    put_taken(out, meta.pzxid, index)
}

// Writes the index of an entry that the image has taken in.
fn put_taken(out: &mut Vec<u8>, value: u64, index: u64) -> Result<(), NoMemory>
    ensures { OnOk result (Wrote (taken index) value out.old.items out.new.items) }
{
    if value > index {
        return Err(NoMemory);
    }
    put_number(out, value)
}

fn put_times(out: &mut Vec<u8>, meta: &Meta) -> Result<(), NoMemory>
    ensures { OnOk result (Wrote times (meta.now.ctime, meta.now.mtime) out.old.items out.new.items) }
{
    put_number(out, meta.ctime)?;
    put_number(out, meta.mtime)
}

// Writes version, cversion and aversion.
fn put_versions(out: &mut Vec<u8>, meta: &Meta) -> Result<(), NoMemory>
    ensures { OnOk result (Wrote versions (meta.now.version, (meta.now.cversion, meta.now.aversion)) out.old.items out.new.items) }
{
    put_small(out, meta.version)?;
    put_small(out, meta.cversion)?;
    put_small(out, meta.aversion)
}

fn put_owner(out: &mut Vec<u8>, owner: u64, ids: &[u64], is_root: bool) -> Result<(), NoMemory>
    requires { AreRising ids.now }
    ensures { OnOk result (Wrote (limited (may_own ids.now is_root) numbers) owner out.old.items out.new.items) }
{
    if !may_own(ids, is_root, owner) {
        return Err(NoMemory);
    }
    put_number(out, owner)
}

// Writes a count of 31 bits.
fn put_small(out: &mut Vec<u8>, value: u32) -> Result<(), NoMemory>
    ensures { OnOk result (Wrote smalls value out.old.items out.new.items) }
{
    if value > LAST_COUNT {
        return Err(NoMemory);
    }
    put_word(out, value)
}
