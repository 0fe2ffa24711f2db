//! The records of a journal, which are read from its bytes.

ghost use Rattle.std.specs.Prelude.{◌≡◌, ◌+◌, ◌≤◌, ◌<◌, false, length, take, drop, slice_get, option_map, cond, nat_lt, Option, Some, None, OnOk, IfOk};
ghost use Rattle.kp_jute.specs.Form.{Answers, IsBytes, front};
ghost use Rattle.kp_entry.specs.Records.{records};
ghost use Rattle.kp_entry.specs.Spellings.{record_of, IsRecordBytes};
ghost use Rattle.kp_journal.specs.Frames.{no_run, one_at, then_run, with_run, run_at, body_len, frames};
ghost use Rattle.kp_journal.specs.Answers.{ReadsOne, ReadsBatch, TellsGate, with_framed, batch_end};

use crate::head::word;
use kp_entry::{Records, read_record};
use kp_jute::{JuteFail, Reader};
use kp_model::NoMemory;
use std::alloc::Global;
use std::marker::Model;

/// Records, and the place of the first byte of each.
#[derive(Drop)]
pub(crate) struct Found {
    records: Records,
    places: Vec<u64>,
}

impl Model for Found {
    ghost use Rattle.std.specs.Prelude.{◌≡◌, false, length};
    ghost use Rattle.kp_entry.specs.Records.{has_base};
    ghost use Rattle.kp_journal.specs.Frames.{Run};

    ghost Value = { Run };

    ghost view = { λ f. record { records = f.records; places = f.places.items } };

    ghost invariant = { λ f. (length f.records ≡ length f.places.items) × (has_base f.records ≡ false) };
}

impl Found {
    /// None. Takes no memory.
    pub(crate) fn new(alloc: Global) -> Found
        ensures { result ≡ no_run }
    {
        Found {
            records: Records::new(alloc),
            places: Vec::new(alloc),
        }
    }

    /// The records.
    pub(crate) fn records(&self) -> &Records
        ensures { result.now ≡ self.now.records }
    {
        &self.records
    }

    /// The place of the first byte of the record at this place in the list, counted from 0.
    pub(crate) fn place(&self, index: usize) -> Option<u64>
        ensures place { result ≡ slice_get self.now.places index }
        ensures count { length self.now.places ≡ length self.now.records }
    {
        self.places.get(index).copied()
    }

    // Adds the record that these bytes spell, of which the first stands at a place of the journal.
    fn add(&mut self, at: usize, bytes: &[u8]) -> Result<(), NoMemory>
        requires { IsRecordBytes bytes.now }
        ensures { OnOk result (self.new ≡ then_run self.old (one_at at (record_of bytes.now))) }
    {
        self.places.reserve(1)?;
        self.records.push_spelled(bytes)?;
        self.places.push_reserved(at as u64);
        Ok(())
    }

    // Reads one record.
    fn read_one(&mut self, alloc: Global, reader: &mut Reader<'_>) -> Result<(), JuteFail>
        ensures { ReadsOne result self.old reader.old (records.read reader.old) self.new reader.new }
    {
        let rest = reader.rest();
        are_bytes(rest);
        let at = reader.place();
        let record = read_record(alloc, reader)?;
        drop(record);
        let len = reader.place() - at;
        match self.add(at, &rest[..len]) {
            Ok(()) => Ok(()),
            Err(_) => Err(JuteFail::NoMemory),
        }
    }

    // Reads records until no bytes are left.
    fn read_run(&mut self, alloc: Global, reader: &mut Reader<'_>) -> Result<(), JuteFail>
        ensures { Answers (λ _. self.new) result (with_run self.old (run_at reader.old.at reader.old.rest)) }
    {
        while !reader.is_at_end() {
            self.read_one(alloc, reader)?;
        }
        Ok(())
    }

    // Reads the batch whose length stands at a place, and answers the place behind it.
    fn read_batch(&mut self, alloc: Global, bytes: &[u8], at: usize) -> Result<usize, JuteFail>
        requires { at ≤ length bytes.now }
        ensures { ReadsBatch result self.old at (drop at bytes.now) self.new }
    {
        let Some(end) = batch_end(bytes, at) else {
            return Err(JuteFail::Short { at });
        };
        let mut reader = part(bytes, at + 4, end);
        self.read_run(alloc, &mut reader)?;
        Ok(end)
    }

    /// Reads the batches from the gate at `at` on, and answers the place of the first gate that is not open.
    pub(crate) fn read_batches(
        &mut self,
        alloc: Global,
        bytes: &[u8],
        at: usize,
    ) -> Result<usize, JuteFail>
        requires { at ≤ length bytes.now }
        ensures read { Answers (λ gate. record { run = self.new; gate = gate }) result (with_framed self.old (frames (length bytes.now) at (drop at bytes.now))) }
        ensures inside { IfOk result (λ gate. gate < length bytes.now) }
    {
        let mut gate = at;
        while is_gate_open(bytes, gate)? {
            gate = self.read_batch(alloc, bytes, gate + 1)?;
        }
        Ok(gate)
    }
}

// Each item of a slice of bytes is below 256. There is no code.
fn are_bytes(bytes: &[u8])
    ensures { IsBytes bytes.now }
{
    let _len = bytes.len();
}

// Whether the gate at a place is open.
fn is_gate_open(bytes: &[u8], at: usize) -> Result<bool, JuteFail>
    requires { at ≤ length bytes.now }
    ensures { TellsGate result at (drop at bytes.now) }
{
    match bytes.get(at) {
        None => Err(JuteFail::Short { at }),
        Some(gate) => Ok(*gate == 1),
    }
}

// The place behind the batch whose length stands at `at`, or None where it is longer than what is left.
fn batch_end(bytes: &[u8], at: usize) -> Option<usize>
    requires { at ≤ length bytes.now }
    ensures { result ≡ batch_end at (drop at bytes.now) }
{
    let left = bytes.len() - at;
    if left < 4 {
        return None;
    }
    let len = word(&bytes[at..at + 4]) as usize;
    if left - 4 < len {
        return None;
    }
    Some(at + 4 + len)
}

// A reader of the bytes from one place up to another.
fn part(bytes: &[u8], from: usize, until: usize) -> Reader<'_>
    requires order { from ≤ until }
    requires inside { until ≤ length bytes.now }
    ensures { result ≡ front from (drop from (take until bytes.now)) }
{
    let mut reader = Reader::new(&bytes[..until]);
    let _passed = reader.take(from);
    reader
}
