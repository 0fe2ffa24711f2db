//! The bytes that are kept.

ghost use Rattle.std.specs.Prelude.{◌≡◌, ◌≤◌, ◌+◌, [], ◌++◌, length, drop, vec_len, OnOk, OnErr};
ghost use Rattle.kp_conn.specs.Frames.{rest_of};

use kp_model::NoMemory;
use std::alloc::Global;

// Takes the first bytes away, or all where what follows them is no frame. What is kept then has memory of its own
// size, so that a long frame's memory goes with it. Without memory all stays.
pub fn keep_rest(kept: &mut Vec<u8>, alloc: Global, used: usize, bad: bool) -> Result<(), NoMemory>
    requires { used ≤ vec_len kept.old }
    ensures ok { OnOk result (kept.new.items ≡ rest_of kept.old.items used bad) }
    ensures fits { OnOk result (vec_len kept.new + used ≤ vec_len kept.old) }
    ensures err { OnErr result (kept.new.items ≡ kept.old.items) }
    ensures err_len { OnErr result (vec_len kept.new ≡ vec_len kept.old) }
{
    if bad {
        *kept = Vec::new(alloc);
        return Ok(());
    }
    if used == 0 {
        return Ok(());
    }
    let rest = Vec::from_slice(alloc, &kept[used..])?;
    *kept = rest;
    Ok(())
}

// Puts what stands behind the first bytes of a piece where nothing is kept; nothing where it is no frame.
pub fn keep_tail(kept: &mut Vec<u8>, piece: &[u8], used: usize, bad: bool) -> Result<(), NoMemory>
    requires empty { kept.old.items ≡ [] }
    requires within { used ≤ length piece.now }
    ensures ok { OnOk result (kept.new.items ≡ rest_of piece.now used bad) }
    ensures fits { OnOk result (vec_len kept.new + used ≤ length piece.now) }
    ensures err { OnErr result (kept.new.items ≡ kept.old.items) }
    ensures err_len { OnErr result (vec_len kept.new ≡ vec_len kept.old) }
{
    if !bad {
        kept.extend_from_slice(&piece[used..])?;
    }
    Ok(())
}
