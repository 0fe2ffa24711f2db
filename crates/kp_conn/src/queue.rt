//! The requests that wait.

ghost use Rattle.std.specs.Prelude.{◌≡◌, ◌<◌, [], ◌∷◌, length, is_some, slice_get, slice_set, Some};
ghost use Rattle.std.specs.VecDeque.{deque_len};
ghost use Rattle.kp_conn.specs.declared.waiting.Waiting.{Waiting};
ghost use Rattle.kp_conn.specs.Queue.{is_numbered, is_close, place_of, replied, settled_at};

use crate::waiting::Waiting;
use kp_wire::{WireAsk, WireReply};
use std::collections::VecDeque;

// Whether a request has the number.
pub fn has_number(waiting: &Waiting, seq: u64) -> bool
    ensures { result ≡ is_numbered seq waiting.now }
{
    match &waiting.mark {
        None => false,
        Some(mark) => mark.seq == seq,
    }
}

// Whether a request ends its session.
fn closes(waiting: &Waiting) -> bool
    ensures { result ≡ is_close waiting.now.request.ask }
{
    matches!(waiting.request.ask, WireAsk::CloseSession)
}

// The place of the first request with the number, or how many there are.
pub fn find_number(queue: &VecDeque<Waiting>, seq: u64) -> usize
    ensures { result ≡ place_of seq queue.now.items }
{
    if seq == 0 {
        return queue.len();
    }
    for at in 0..queue.len() {
        if has_number(&queue[at], seq) {
            return at;
        }
    }
    queue.len()
}

// The request keeps the reply.
fn keep_reply(queue: &mut VecDeque<Waiting>, at: usize, reply: WireReply)
    requires { at < deque_len queue.old }
    ensures { (w : Waiting) → slice_get queue.old.items at ≡ Some w → queue.new.items ≡ slice_set queue.old.items at (replied reply w) }
{
    match queue.get_mut(at) {
        None => drop(reply),
        Some(waiting) => waiting.reply = Some(reply),
    }
}

// The request keeps the reply, and all others go.
fn keep_alone(queue: &mut VecDeque<Waiting>, at: usize, reply: WireReply)
    requires { at < deque_len queue.old }
    ensures { (w : Waiting) → slice_get queue.old.items at ≡ Some w → queue.new.items ≡ replied reply w ∷ [] }
{
    match queue.remove(at) {
        None => drop(reply),
        Some(mut waiting) => {
            queue.clear();
            waiting.reply = Some(reply);
            queue.push_back_reserved(waiting);
        }
    }
}

// The request at the place keeps the reply; where it ends its session, all others go. Answers whether there is one.
pub fn settle_at(queue: &mut VecDeque<Waiting>, at: usize, reply: WireReply) -> bool
    ensures some { result ≡ is_some (slice_get queue.old.items at) }
    ensures after { queue.new.items ≡ settled_at at reply queue.old.items (slice_get queue.old.items at) }
{
    match queue.get(at) {
        None => {
            drop(reply);
            return false;
        }
        Some(waiting) => {
            if closes(waiting) {
                keep_alone(queue, at, reply);
            } else {
                keep_reply(queue, at, reply);
            }
        }
    }
    true
}
