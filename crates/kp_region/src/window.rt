//! A window on a stream of bytes: bytes are added at its end and leave at both ends.

ghost use Rattle.std.specs.Prelude.{◌≡◌, ◌+◌, ◌-◌, ◌*◌, ◌^◌, ◌<◌, ◌≤◌, [], ◌++◌, length, take, drop, max, OnOk, OnErr};
ghost use Rattle.std.specs.Vec.{vec_len, vec_capacity};
ghost use Rattle.kp_region.specs.Stretch.{end_of};

use crate::NoMemory;
use std::alloc::{AllocError, Global};
use std::marker::Model;

/// The bytes of a stream from one place to another, and room for more. Every byte has a running place,
/// counted from 0, which stays the same where the bytes are moved in memory.
#[derive(Drop)]
pub(crate) struct Window {
    buffer: Vec<u8>,
    // how many bytes at the front of the buffer have left the window
    dead: usize,
    // the place of the buffer's first byte
    base: u64,
}

impl Model for Window {
    ghost use Rattle.std.specs.Prelude.{◌+◌, ◌-◌, ◌^◌, ◌≤◌, drop};
    ghost use Rattle.std.specs.Vec.{vec_len, vec_capacity};
    ghost use Rattle.kp_region.specs.Stretch.{Stretch};

    ghost Value = { Stretch };

    ghost view = { λ w. record { start = w.base + w.dead; bytes = drop w.dead w.buffer.items; room = vec_capacity w.buffer - vec_len w.buffer } };

    ghost invariant = { λ w. record { within : w.dead ≤ vec_len w.buffer; fits : w.base + vec_len w.buffer ≤ 2 ^ 62 } };
}

impl Window {
    /// An empty window at place 0.
    pub(crate) fn new(alloc: Global) -> Window
        ensures start { result.start ≡ 0 }
        ensures bytes { result.bytes ≡ [] }
    {
        Window {
            buffer: Vec::new(alloc),
            dead: 0,
            base: 0,
        }
    }

    /// The place behind the last byte.
    pub(crate) fn end(&self) -> u64
        ensures place { result ≡ end_of self.now }
        ensures fits { result ≤ 2 ^ 62 }
    {
        self.base + self.buffer.len() as u64
    }

    /// Makes room for `extra` more bytes.
    pub(crate) fn reserve(&mut self, extra: usize) -> Result<(), NoMemory>
        ensures start { self.new.start ≡ self.old.start }
        ensures bytes { self.new.bytes ≡ self.old.bytes }
        ensures room { self.old.room ≤ self.new.room }
        ensures ok { OnOk result (extra ≤ self.new.room) }
        ensures full { OnErr result (self.old.room < extra) }
    {
        if extra <= self.buffer.capacity() - self.buffer.len() {
            return Ok(());
        }
        take_away(&mut self.buffer, self.dead);
        self.base += self.dead as u64;
        self.dead = 0;
        make_room(&mut self.buffer, extra)
    }

    /// Adds the bytes at the end.
    pub(crate) fn append(&mut self, bytes: &[u8])
        requires room { length bytes.now ≤ self.old.room }
        requires fits { end_of self.old + length bytes.now ≤ 2 ^ 62 }
        ensures start { self.new.start ≡ self.old.start }
        ensures bytes { self.new.bytes ≡ self.old.bytes ++ bytes.now }
        ensures room { self.old.room - length bytes.now ≤ self.new.room }
    {
        let _in_room = self.buffer.extend_from_slice(bytes);
    }

    /// Lets the first `count` bytes leave.
    pub(crate) fn drop_front(&mut self, count: usize)
        requires { count ≤ length self.old.bytes }
        ensures start { self.new.start ≡ self.old.start + count }
        ensures bytes { self.new.bytes ≡ drop count self.old.bytes }
        ensures room { self.new.room ≡ self.old.room }
    {
        self.dead += count;
    }

    /// Lets the last `count` bytes leave. Their places are those of the next bytes.
    pub(crate) fn drop_back(&mut self, count: usize)
        requires { count ≤ length self.old.bytes }
        ensures start { self.new.start ≡ self.old.start }
        ensures bytes { self.new.bytes ≡ take (length self.old.bytes - count) self.old.bytes }
        ensures room { self.old.room ≤ self.new.room }
    {
        let len = self.buffer.len();
        self.buffer.truncate(len - count);
    }

    /// Lends the `len` bytes from the place `start` on.
    pub(crate) fn slice(&self, start: u64, len: usize) -> &[u8]
        requires from { self.now.start ≤ start }
        requires to { start + len ≤ end_of self.now }
        ensures { result.now ≡ take len (drop (start - self.now.start) self.now.bytes) }
    {
        let from = (start - self.base) as usize;
        &self.buffer[from..from + len]
    }

    /// The bytes, with their memory.
    pub(crate) fn into_bytes(self) -> Vec<u8>
        ensures { result.items ≡ self.bytes }
    {
        let Window {
            mut buffer,
            dead,
            ..
        } = self;
        take_away(&mut buffer, dead);
        buffer
    }
}

// Takes away the first `dead` bytes. The others move to the front, and the capacity stays.
fn take_away(buffer: &mut Vec<u8>, dead: usize)
    requires { dead ≤ vec_len buffer.old }
    ensures items { buffer.new.items ≡ drop dead buffer.old.items }
    ensures len { vec_len buffer.new ≡ vec_len buffer.old - dead }
    ensures capacity { vec_capacity buffer.new ≡ vec_capacity buffer.old }
{
    if dead == 0 {
        return;
    }
    let live = buffer.len() - dead;
    if live <= dead {
        // Nothing overlaps, so the bytes move in one copy.
        let (front, back) = buffer.split_at_mut(dead);
        front[..live].copy_from_slice(back);
    } else {
        buffer.copy_within(dead.., 0);
    }
    buffer.truncate(live);
}

// Makes room for `extra` more bytes. The capacity never passes twice the bytes that are then needed,
// unless it did before: so a buffer whose need is bounded stops growing.
fn make_room(buffer: &mut Vec<u8>, extra: usize) -> Result<(), NoMemory>
    ensures items { buffer.new.items ≡ buffer.old.items }
    ensures len { vec_len buffer.new ≡ vec_len buffer.old }
    ensures ok { OnOk result (vec_len buffer.new + extra ≤ vec_capacity buffer.new) }
    ensures kept { vec_capacity buffer.old ≤ vec_capacity buffer.new }
    ensures bounded { vec_capacity buffer.new ≤ max (vec_capacity buffer.old) (2 * (vec_len buffer.old + extra)) }
{
    let len = buffer.len();
    if usize::MAX / 4 < len || usize::MAX / 4 < extra {
        return Err(AllocError);
    }
    buffer.reserve_exact(len + 2 * extra)?;
    Ok(())
}
