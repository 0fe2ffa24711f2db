//! A piece of a live connection.

ghost use Rattle.std.specs.Prelude.{◌≡◌, ◌≤◌, ◌+◌, [], ◌++◌, ℕ, length, vec_len, IfOk, OnErr};
ghost use Rattle.kp_conn.specs.Frames.{cut, shown, rest_of};

use crate::frames::{Found, cut_frames};
use crate::kept::{keep_rest, keep_tail};
use kp_model::NoMemory;
use std::alloc::Global;

// The piece joins what was kept, and the whole frames are cut off its front. Where nothing was kept, the piece is cut
// where it lies, and what is left of it alone is kept. Without memory all stays.
pub fn take_piece(kept: &mut Vec<u8>, alloc: Global, piece: &[u8]) -> Result<Found, NoMemory>
    ensures cut { IfOk result (λ f. (place : ℕ) → cut place (kept.old.items ++ piece.now) ≡ shown place (kept.old.items ++ piece.now) f.requests f.used f.bad) }
    ensures rest { IfOk result (λ f. kept.new.items ≡ rest_of (kept.old.items ++ piece.now) f.used f.bad) }
    ensures fits { IfOk result (λ f. vec_len kept.new + f.used ≤ vec_len kept.old + length piece.now) }
    ensures err { OnErr result (kept.new.items ≡ kept.old.items) }
    ensures err_len { OnErr result (vec_len kept.new ≡ vec_len kept.old) }
{
    if kept.is_empty() {
        cut_piece(kept, alloc, piece)
    } else {
        cut_kept(kept, alloc, piece)
    }
}

// The frames of a piece before which nothing was kept.
fn cut_piece(kept: &mut Vec<u8>, alloc: Global, piece: &[u8]) -> Result<Found, NoMemory>
    requires { kept.old.items ≡ [] }
    ensures cut { IfOk result (λ f. (place : ℕ) → cut place piece.now ≡ shown place piece.now f.requests f.used f.bad) }
    ensures rest { IfOk result (λ f. kept.new.items ≡ rest_of piece.now f.used f.bad) }
    ensures fits { IfOk result (λ f. vec_len kept.new + f.used ≤ length piece.now) }
    ensures err { OnErr result (kept.new.items ≡ kept.old.items) }
    ensures err_len { OnErr result (vec_len kept.new ≡ vec_len kept.old) }
{
    let found = cut_frames(alloc, piece)?;
    match keep_tail(kept, piece, found.used, found.bad) {
        Ok(()) => Ok(found),
        Err(none) => {
            drop(found);
            Err(none)
        }
    }
}

// The frames of what was kept and a piece behind it.
fn cut_kept(kept: &mut Vec<u8>, alloc: Global, piece: &[u8]) -> Result<Found, NoMemory>
    ensures cut { IfOk result (λ f. (place : ℕ) → cut place (kept.old.items ++ piece.now) ≡ shown place (kept.old.items ++ piece.now) f.requests f.used f.bad) }
    ensures rest { IfOk result (λ f. kept.new.items ≡ rest_of (kept.old.items ++ piece.now) f.used f.bad) }
    ensures fits { IfOk result (λ f. vec_len kept.new + f.used ≤ vec_len kept.old + length piece.now) }
    ensures err { OnErr result (kept.new.items ≡ kept.old.items) }
    ensures err_len { OnErr result (vec_len kept.new ≡ vec_len kept.old) }
{
    let had = kept.len();
    kept.extend_from_slice(piece)?;
    match cut_off(kept, alloc) {
        Ok(found) => Ok(found),
        Err(none) => {
            kept.truncate(had);
            Err(none)
        }
    }
}

// The frames of what is kept.
fn cut_off(kept: &mut Vec<u8>, alloc: Global) -> Result<Found, NoMemory>
    ensures cut { IfOk result (λ f. (place : ℕ) → cut place kept.old.items ≡ shown place kept.old.items f.requests f.used f.bad) }
    ensures rest { IfOk result (λ f. kept.new.items ≡ rest_of kept.old.items f.used f.bad) }
    ensures fits { IfOk result (λ f. vec_len kept.new + f.used ≤ vec_len kept.old) }
    ensures err { OnErr result (kept.new.items ≡ kept.old.items) }
    ensures err_len { OnErr result (vec_len kept.new ≡ vec_len kept.old) }
{
    let found = cut_frames(alloc, kept)?;
    match keep_rest(kept, alloc, found.used, found.bad) {
        Ok(()) => Ok(found),
        Err(none) => {
            drop(found);
            Err(none)
        }
    }
}
