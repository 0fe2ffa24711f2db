//! Byte strings in one vector.

ghost use Rattle.std.specs.Prelude.{◌≡◌, ◌+◌, ◌-◌, ◌^◌, ◌<◌, ◌≤◌, [], ◌∷◌, ◌++◌, length, take, drop, slice_get, option_map, IfOk, OnOk, OnErr};
ghost use Rattle.std.specs.List.{concat};
ghost use Rattle.std.specs.Vec.{vec_capacity, vec_len};
ghost use Rattle.kp_entry.specs.Pieces.{begin_of, pieces, AreOf};

use kp_model::NoMemory;
use std::alloc::Global;
use std::marker::Model;

/// Byte strings, one behind the other in one vector, with the places where they end.
#[derive(Drop)]
pub(crate) struct Pieces {
    bytes: Vec<u8>,
    ends: Vec<usize>,
}

impl Model for Pieces {
    ghost use Rattle.std.specs.Prelude.{◌-◌};
    ghost use Rattle.std.specs.Vec.{vec_capacity, vec_len};
    ghost use Rattle.kp_entry.specs.Pieces.{Texts, pieces, AreOf};

    ghost Value = { Texts };

    ghost view = { λ p. record { strings = pieces 0 p.bytes.items p.ends.items; string_room = vec_capacity p.ends - vec_len p.ends; byte_room = vec_capacity p.bytes - vec_len p.bytes } };

    ghost invariant = { λ p. AreOf p.bytes.items p.ends.items (pieces 0 p.bytes.items p.ends.items) };
}

impl Pieces {
    /// No strings. Takes no memory.
    #[tactic(auto, using(crate::proofs::Cuts::none_are))]
    pub(crate) fn new(alloc: Global) -> Pieces
        ensures { result.strings ≡ [] }
    {
        Pieces {
            bytes: Vec::new(alloc),
            ends: Vec::new(alloc),
        }
    }

    /// The strings that these ends cut from these bytes. Takes no memory.
    pub(crate) fn joined(bytes: Vec<u8>, ends: Vec<usize>) -> Pieces
        requires { AreOf bytes.items ends.items (pieces 0 bytes.items ends.items) }
        ensures { result.strings ≡ pieces 0 bytes.items ends.items }
    {
        Pieces { bytes, ends }
    }

    /// The number of strings.
    #[tactic(auto, using(crate::proofs::Cuts::pieces_len))]
    pub(crate) fn len(&self) -> usize
        ensures count { result ≡ length self.now.strings }
        ensures bound { result < 2 ^ 63 }
    {
        self.ends.as_slice().len()
    }

    /// All strings, one behind the other.
    pub(crate) fn bytes(&self) -> &[u8]
        ensures { result.now ≡ concat self.now.strings }
    {
        self.bytes.as_slice()
    }

    /// Lends the string at this place, counted from 0.
    pub(crate) fn get(&self, index: usize) -> Option<&[u8]>
        ensures { option_map (λ s. s.now) result ≡ slice_get self.now.strings index }
    {
        if index < self.ends.len() {
            let start = begin_of(&self.ends, index);
            let end = self.ends[index];
            Some(cut(&self.bytes, start, end))
        } else {
            None
        }
    }

    /// Makes room for `count` more strings of together `bytes` bytes.
    pub(crate) fn reserve(&mut self, count: usize, bytes: usize) -> Result<(), NoMemory>
        ensures same { self.new.strings ≡ self.old.strings }
        ensures strings { OnOk result (count ≤ self.new.string_room) }
        ensures bytes { OnOk result (bytes ≤ self.new.byte_room) }
    {
        self.ends.reserve(count)?;
        self.bytes.reserve(bytes)?;
        Ok(())
    }

    /// Adds a string at the end, which is given in two parts and for which there is room.
    pub(crate) fn push_reserved(&mut self, head: &[u8], tail: &[u8])
        requires string { 1 ≤ self.old.string_room }
        requires bytes { length head.now + length tail.now ≤ self.old.byte_room }
        ensures added { self.new.strings ≡ self.old.strings ++ (head.now ++ tail.now) ∷ [] }
        ensures strings { self.new.string_room ≡ self.old.string_room - 1 }
        ensures bytes { self.old.byte_room - (length head.now + length tail.now) ≤ self.new.byte_room }
    {
        add(&mut self.bytes, head);
        add(&mut self.bytes, tail);
        let end = self.bytes.as_slice().len();
        self.ends.push_reserved(end);
    }

    /// Adds a string at the end, which is given in two parts.
    pub(crate) fn push(&mut self, head: &[u8], tail: &[u8]) -> Result<(), NoMemory>
        ensures ok { OnOk result (self.new.strings ≡ self.old.strings ++ (head.now ++ tail.now) ∷ []) }
        ensures err { OnErr result (self.new.strings ≡ self.old.strings) }
    {
        self.reserve(1, head.len() + tail.len())?;
        self.push_reserved(head, tail);
        Ok(())
    }

    /// Keeps the first `count` strings. Takes no memory.
    pub(crate) fn truncate(&mut self, count: usize)
        requires { count ≤ length self.old.strings }
        ensures { self.new.strings ≡ take count self.old.strings }
    {
        let end = begin_of(&self.ends, count);
        self.bytes.truncate(end);
        self.ends.truncate(count);
    }

    /// Equal strings with memory of their own.
    pub(crate) fn copy(&self, alloc: Global) -> Result<Pieces, NoMemory>
        ensures { IfOk result (λ made. made.strings ≡ self.now.strings) }
    {
        Ok(Pieces {
            bytes: Vec::from_slice(alloc, &self.bytes)?,
            ends: Vec::from_slice(alloc, &self.ends)?,
        })
    }
}

// Where the string at this place begins, or where the last one ends.
fn begin_of(ends: &[usize], index: usize) -> usize
    requires { index ≤ length ends.now }
    ensures { result ≡ begin_of ends.now index }
{
    if index == 0 { 0 } else { ends[index - 1] }
}

// The bytes from one place on and before another.
fn cut(bytes: &[u8], start: usize, end: usize) -> &[u8]
    requires from { start ≤ end }
    requires to { end ≤ length bytes.now }
    ensures { result.now ≡ take (end - start) (drop start bytes.now) }
{
    &bytes[start..end]
}

// Adds bytes for which there is room.
fn add(bytes: &mut Vec<u8>, more: &[u8])
    requires { vec_len bytes.old + length more.now ≤ vec_capacity bytes.old }
    ensures items { bytes.new.items ≡ bytes.old.items ++ more.now }
    ensures len { vec_len bytes.new ≡ vec_len bytes.old + length more.now }
    ensures capacity { vec_capacity bytes.old ≤ vec_capacity bytes.new }
{
    let _in_room = bytes.extend_from_slice(more);
}
