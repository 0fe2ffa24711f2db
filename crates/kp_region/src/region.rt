//! The region.

ghost use Rattle.std.specs.Prelude.{◌≡◌, ℕ, [], ◌+◌, ◌^◌, ◌<◌, ◌≤◌, ◌↔◌, length, max, option_map, slice_get, IsTrue, IsOk, OnOk, OnErr};
ghost use Rattle.std.specs.List.{flat_map};
ghost use Rattle.kp_region.specs.Marked.{no_strings, next_mark, string_at, run_at, with_string, without_first, without_last};
ghost use Rattle.kp_region.specs.Spans.{begin_of};

use crate::NoMemory;
use crate::window::Window;
use std::alloc::{AllocError, Global};
use std::collections::VecDeque;
use std::marker::Model;

/// Neither a mark nor a running place passes this number.
const LIMIT: u64 = 1 << 62;

/// Where a string lies: the running place of its first byte, and its length in bytes.
#[derive(Clone, Copy)]
pub(crate) struct Span {
    start: u64,
    len: usize,
}

/// A list of byte strings under running marks: the first string ever pushed has mark 1, and each
/// later one the mark after that of the last string then in the list. Strings are added at the back,
/// leave at both ends, and are lent as slices.
///
/// All strings lie in one buffer, each in one piece, and the bytes of strings that left at the front
/// are used again. Every byte has a running place, which moves never change. Only `reserve` moves
/// bytes or takes memory; each other call costs the bytes of its own string at most.
#[derive(Drop)]
pub struct Region {
    window: Window,
    spans: VecDeque<Span>,
    // the mark of the first string
    first: u64,
    spare_records: usize,
    spare_bytes: usize,
}

impl Model for Region {
    ghost use Rattle.std.specs.Prelude.{◌-◌};
    ghost use Rattle.std.specs.VecDeque.{deque_len, deque_capacity};
    ghost use Rattle.kp_region.specs.Marked.{Marked, marked_code};

    ghost Value = { Marked };

    ghost coded = { marked_code };

    ghost use Rattle.kp_region.specs.Spans.{shown, HoldsTogether};

    ghost view = { λ r. shown r.window r.spans.items r.first r.spare_records r.spare_bytes };

    ghost invariant = { λ r. HoldsTogether r.window r.spans.items r.first r.spare_records r.spare_bytes (deque_capacity r.spans - deque_len r.spans) };
}

impl Region {
    /// A region without strings and without room.
    pub fn new(alloc: Global) -> Region
        ensures { result ≡ no_strings }
    {
        Region {
            window: Window::new(alloc),
            spans: VecDeque::new(alloc),
            first: 1,
            spare_records: 0,
            spare_bytes: 0,
        }
    }

    /// The mark of the first string, or where there is none, the mark that the next one gets.
    pub fn first(&self) -> u64
        ensures mark { result ≡ self.now.first }
        ensures range { (1 ≤ result) × (next_mark self.now + self.now.spare_records ≤ 2 ^ 62 + 1) }
    {
        self.first
    }

    /// How many strings there are.
    pub fn len(&self) -> usize
        ensures { result ≡ length self.now.strings }
    {
        self.spans.len()
    }

    /// Whether there is no string.
    pub fn is_empty(&self) -> bool
        ensures { IsTrue result ↔ (self.now.strings ≡ []) }
    {
        self.spans.is_empty()
    }

    /// For how many more strings there is room.
    pub fn spare_records(&self) -> usize
        ensures { result ≡ self.now.spare_records }
    {
        self.spare_records
    }

    /// For how many more bytes of strings there is room.
    pub fn spare_bytes(&self) -> usize
        ensures { result ≡ self.now.spare_bytes }
    {
        self.spare_bytes
    }

    /// Makes room for at least `records` strings of together at least `bytes` bytes. A number below
    /// the room that there is leaves that room, and where both numbers are, the answer is Ok. Answers
    /// `NoMemory`, and changes nothing, where memory runs out, or where the last mark and the spare
    /// records together, or the bytes ever pushed and the spare bytes together, would pass 2^62.
    pub fn reserve(&mut self, records: usize, bytes: usize) -> Result<(), NoMemory>
        ensures ok { OnOk result (self.new ≡ record self.old { spare_records = max self.old.spare_records records; spare_bytes = max self.old.spare_bytes bytes }) }
        ensures marks { OnOk result (next_mark self.new + self.new.spare_records ≤ 2 ^ 62 + 1) }
        ensures err { OnErr result (self.new ≡ self.old) }
        ensures met { records ≤ self.old.spare_records → bytes ≤ self.old.spare_bytes → IsOk result }
    {
        let records = self.spare_records.max(records);
        let bytes = self.spare_bytes.max(bytes);
        let last = self.first - 1 + self.spans.len() as u64;
        if LIMIT - last < records as u64 {
            return Err(AllocError);
        }
        if LIMIT - self.window.end() < bytes as u64 {
            return Err(AllocError);
        }
        self.spans.reserve(records)?;
        self.window.reserve(bytes)?;
        self.spare_records = records;
        self.spare_bytes = bytes;
        Ok(())
    }

    /// Adds the string at the back and answers its mark, one more than the last. Uses up one spare
    /// record and as many spare bytes as the string has, and takes no memory.
    pub fn push(&mut self, bytes: &[u8]) -> u64
        requires record { 1 ≤ self.old.spare_records }
        requires bytes { length bytes.now ≤ self.old.spare_bytes }
        ensures mark { result ≡ next_mark self.old }
        ensures after { self.new ≡ with_string self.old bytes.now }
    {
        let mark = self.first + self.spans.len() as u64;
        let span = Span {
            start: self.window.end(),
            len: bytes.len(),
        };
        self.window.append(bytes);
        self.spans.push_back_reserved(span);
        self.spare_records -= 1;
        self.spare_bytes -= bytes.len();
        mark
    }

    /// Takes the first string away. The others keep their marks, and the spare room stays.
    /// Answers false, and changes nothing, exactly where there is no string.
    pub fn pop_front(&mut self) -> bool
        ensures some { IsTrue result ↔ (0 < length self.old.strings) }
        ensures after { self.new ≡ without_first self.old }
    {
        match self.spans.pop_front() {
            None => false,
            Some(span) => {
                self.window.drop_front(span.len);
                self.first += 1;
                true
            }
        }
    }

    /// Takes the last string away. Its mark is given again, and the spare room stays.
    /// Answers false, and changes nothing, exactly where there is no string.
    pub fn pop_back(&mut self) -> bool
        ensures some { IsTrue result ↔ (0 < length self.old.strings) }
        ensures after { self.new ≡ without_last self.old }
    {
        match self.spans.pop_back() {
            None => false,
            Some(span) => {
                self.window.drop_back(span.len);
                true
            }
        }
    }

    /// Lends the string of the mark, in one piece. None exactly where no string of the list has the mark.
    pub fn get(&self, mark: u64) -> Option<&[u8]>
        ensures { option_map (λ s. s.now) result ≡ string_at self.now mark }
    {
        if mark < self.first {
            return None;
        }
        match span_at(&self.spans, (mark - self.first) as usize) {
            None => None,
            Some(span) => Some(self.window.slice(span.start, span.len)),
        }
    }

    /// Lends so many adjacent strings in one piece, one behind the other, of which the one of the mark is the first.
    /// None exactly where one of these marks isn't in the list. A run of none is lent at each mark from the first to the
    /// one that the next string gets.
    pub fn run(&self, mark: u64, count: usize) -> Option<&[u8]>
        ensures { option_map (λ s. s.now) result ≡ run_at self.now mark count }
    {
        if mark < self.first {
            return None;
        }
        let from = (mark - self.first) as usize;
        if from > self.spans.len() || count > self.spans.len() - from {
            return None;
        }
        let start = begin_of(&self.spans, &self.window, from);
        let end = begin_of(&self.spans, &self.window, from + count);
        Some(self.window.slice(start, (end - start) as usize))
    }

    /// All strings, one behind the other, with the memory in which they lie. Takes none, and moves no byte unless
    /// strings left at the front.
    pub fn into_bytes(self) -> Vec<u8>
        ensures { result.items ≡ flat_map (λ s. s) self.strings }
    {
        let Region { window, .. } = self;
        window.into_bytes()
    }
}

fn span_at(spans: &VecDeque<Span>, index: usize) -> Option<Span>
    ensures { result ≡ slice_get spans.now.items index }
{
    spans.get(index).copied()
}

// Where the string of this index begins, or where there is none, the end of the window.
fn begin_of(spans: &VecDeque<Span>, window: &Window, index: usize) -> u64
    ensures { result ≡ begin_of window.now spans.now.items index }
{
    match span_at(spans, index) {
        None => window.end(),
        Some(span) => span.start,
    }
}
