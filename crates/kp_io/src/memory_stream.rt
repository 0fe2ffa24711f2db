ghost use Rattle.std.specs.Prelude.{Some, Bool, ◌≡◌, ◌<◌, ◌≤◌, ◌+◌, ◌↔◌, [], false, length, drop, IfOk, IsErr, Contains};
ghost use Rattle.kp_io.specs.Faults.{HasCause, one_more};
ghost use Rattle.kp_io.specs.Streams.{FaultyFlow, Flow, TellsTook, IsLater, IsNext, TookWithin, ended_after, ended_by, left_of, piece_of, pieces_of, size_given, size_of};

use crate::Failed;
use crate::faults::raised;
use crate::stream::{Stream, Took};
use std::alloc::Global;
use std::marker::Model;

// What is given next, where so many bytes are left, there is room for so many, and at most `piece` are given.
fn next_bytes(left: usize, room: usize, piece: usize) -> Took
    requires { (0 < room) × (0 < piece) }
    ensures next { IsNext left room piece result × (IsLater result → ⊥) }
    ensures inside { size_of result ≤ left }
    ensures bound { TookWithin result room }
{
    let count = left.min(room).min(piece);
    if count == 0 {
        return Took::End;
    }
    Took::Bytes(count)
}

// The same at the call of this number, where nothing has come yet at the calls of the numbers in `later`.
fn next_took(later: &[u64], call: u64, left: usize, room: usize, piece: usize) -> Took
    requires { (0 < room) × (0 < piece) }
    ensures next { IsNext left room piece result }
    ensures later { IsLater result ↔ Contains later.now call }
    ensures inside { size_of result ≤ left }
    ensures bound { TookWithin result room }
{
    if later.contains(&call) {
        return Took::Later;
    }
    next_bytes(left, room, piece)
}

// Whether the stream has ended, after this answer.
fn ends(took: Took, before: bool) -> bool
    ensures { result ≡ ended_by took before }
{
    match took {
        Took::End => true,
        Took::Bytes(_) | Took::Later => before,
    }
}

// Copies the bytes of an answer from their place to the front of `into`, and answers how many they are.
fn give(from: &[u8], at: usize, took: Took, into: &mut [u8]) -> usize
    requires inside { at + size_of took ≤ length from.now }
    requires bound { TookWithin took (length into.old) }
    ensures count { result ≡ size_of took }
    ensures length { length into.new ≡ length into.old }
    ensures piece { piece_of took into.new ≡ piece_of took (drop at from.now) }
{
    match took {
        Took::Bytes(count) => {
            into[..count].copy_from_slice(&from[at..at + count]);
            count
        }
        Took::End | Took::Later => 0,
    }
}

/// A stream in memory, which fails only where it finds no memory to note its answer.
#[derive(Drop)]
pub struct MemoryStream {
    bytes: Vec<u8>,
    at: usize,
    piece: usize,
    later: Vec<u64>,
    given: Vec<Took>,
    ended: bool,
    calls: u64,
    faults: u64,
}

impl Model for MemoryStream {
    ghost Value = { Flow };

    ghost view = { λ s. record { told = pieces_of s.bytes.items s.given.items; left = drop s.at s.bytes.items; piece = s.piece; later = s.later.items; ended = s.ended; calls = s.calls; faults = s.faults } };

    ghost invariant = { λ s. (s.at ≤ length s.bytes.items) × (0 < s.piece) × (left_of s.bytes.items s.given.items ≡ drop s.at s.bytes.items) };
}

impl MemoryStream {
    /// A stream that gives these bytes, at most `piece` of them in a call, and then ends. At the calls whose numbers stand in
    /// `later`, counted from 1, nothing has come yet.
    pub fn new(alloc: Global, bytes: Vec<u8>, piece: usize, later: Vec<u64>) -> MemoryStream
        requires { 0 < piece }
        ensures { result ≡ record { told = []; left = bytes.items; piece = piece; later = later.items; ended = false; calls = 0; faults = 0 } }
    {
        MemoryStream {
            bytes,
            at: 0,
            piece,
            later,
            given: Vec::new(alloc),
            ended: false,
            calls: 0,
            faults: 0,
        }
    }

    // The number of the next call.
    fn next_call(&self) -> u64
        ensures { result ≡ one_more self.now.calls }
    {
        raised(self.calls)
    }

    // Counts one more call, which failed.
    fn fail(&mut self) -> Failed
        ensures { self.new ≡ record self.old { calls = one_more self.old.calls; faults = one_more self.old.faults } }
    {
        self.calls = raised(self.calls);
        self.faults = raised(self.faults);
        Failed
    }
}

impl Stream for MemoryStream {
    ghost told = { λ s. Some s.told };

    ghost ended = { λ s. s.ended };

    ghost faults = { λ s. s.faults };

    fn take(&mut self, into: &mut [u8]) -> Result<Took, Failed>
        requires { 0 < length into.old }
        ensures bound { IfOk result (λ took. TookWithin took (length into.new)) }
        ensures told { TellsTook (Some self.old.told) (Some self.new.told) result into.new }
        ensures ended { self.new.ended ≡ ended_after result self.old.ended }
        ensures cause { HasCause self.old.faults self.new.faults result }
        ensures next { IfOk result (λ took. IsNext (length self.old.left) (length into.old) self.old.piece took) }
        ensures later { IfOk result (λ took. IsLater took ↔ Contains self.old.later (one_more self.old.calls)) }
        ensures left { self.new.left ≡ drop (size_given result) self.old.left }
        ensures same { (self.new.piece ≡ self.old.piece) × (self.new.later ≡ self.old.later) × (self.new.calls ≡ one_more self.old.calls) }
    {
        self.calls = raised(self.calls);
        let left = self.bytes.len() - self.at;
        let took = next_took(
            self.later.as_slice(),
            self.calls,
            left,
            into.len(),
            self.piece,
        );
        if self.given.push(took).is_err() {
            self.faults = raised(self.faults);
            return Err(Failed);
        }
        self.at += give(self.bytes.as_slice(), self.at, took, into);
        self.ended = ends(took, self.ended);
        Ok(took)
    }
}

/// A stream in memory with a list of the calls that are to fail.
#[derive(Drop)]
pub struct FaultyStream {
    stream: MemoryStream,
    failing: Vec<u64>,
}

impl Model for FaultyStream {
    ghost Value = { FaultyFlow };

    ghost view = { λ s. record { stream = s.stream; failing = s.failing.items } };
}

impl FaultyStream {
    /// A stream that gives these bytes, at most `piece` of them in a call, and then ends. At the calls whose numbers stand in
    /// `later`, counted from 1, nothing has come yet, and those whose numbers stand in `failing` fail.
    pub fn new(
        alloc: Global,
        bytes: Vec<u8>,
        piece: usize,
        later: Vec<u64>,
        failing: Vec<u64>,
    ) -> FaultyStream
        requires { 0 < piece }
        ensures { result ≡ record { stream = record { told = []; left = bytes.items; piece = piece; later = later.items; ended = false; calls = 0; faults = 0 }; failing = failing.items } }
    {
        FaultyStream {
            stream: MemoryStream::new(alloc, bytes, piece, later),
            failing,
        }
    }
}

impl Stream for FaultyStream {
    ghost told = { λ s. Some s.stream.told };

    ghost ended = { λ s. s.stream.ended };

    ghost faults = { λ s. s.stream.faults };

    fn take(&mut self, into: &mut [u8]) -> Result<Took, Failed>
        requires { 0 < length into.old }
        ensures bound { IfOk result (λ took. TookWithin took (length into.new)) }
        ensures told { TellsTook (Some self.old.stream.told) (Some self.new.stream.told) result into.new }
        ensures ended { self.new.stream.ended ≡ ended_after result self.old.stream.ended }
        ensures cause { HasCause self.old.stream.faults self.new.stream.faults result }
        ensures fails { Contains self.old.failing (one_more self.old.stream.calls) → IsErr result }
        ensures next { IfOk result (λ took. IsNext (length self.old.stream.left) (length into.old) self.old.stream.piece took) }
        ensures later { IfOk result (λ took. IsLater took ↔ Contains self.old.stream.later (one_more self.old.stream.calls)) }
        ensures left { self.new.stream.left ≡ drop (size_given result) self.old.stream.left }
        ensures calls { self.new.stream.calls ≡ one_more self.old.stream.calls }
        ensures same { (self.new.stream.piece ≡ self.old.stream.piece) × (self.new.stream.later ≡ self.old.stream.later) × (self.new.failing ≡ self.old.failing) }
    {
        if self.failing.contains(&self.stream.next_call()) {
            return Err(self.stream.fail());
        }
        self.stream.take(into)
    }
}
