//! Sources, sinks, disks and the adapters over a reader and a writer.
ghost use Rattle.std.specs.Prelude.{◌≡◌, ◌≤◌, ◌<◌, [], IfOk};

use kp_io::{
    Disk, Failed, FaultySink, FaultySource, Four, MemoryDisk, MemorySink, MemorySource,
    ReaderSource, Seven, Sink, Source, WriterSink,
};
use std::alloc::{AllocError, Global};
use std::io::{self, ErrorKind, Read, Write};
use std::test::Fail;

const TEXT: &[u8] = b"seven words";

// What reads of at most four bytes give up to the end, and how many of them failed.
fn drained<S: Source>(alloc: Global, source: &mut S) -> Result<(Vec<u8>, u64), AllocError> {
    let mut bytes = Vec::new(alloc);
    let mut failed = 0u64;
    let mut into = [0u8; 4];
    for _ in 0..100 {
        match source.read(&mut into) {
            Ok(0) => break,
            Ok(count) => bytes.extend_from_slice(&into[..count])?,
            Err(Failed) => failed = failed.saturating_add(1),
        }
    }
    Ok((bytes, failed))
}

// Writes a text in as many calls as it takes, and answers how many failed.
fn filled<W: Sink>(sink: &mut W, bytes: &[u8]) -> u64 {
    let mut at = 0;
    let mut failed = 0u64;
    for _ in 0..100 {
        if at >= bytes.len() {
            break;
        }
        match sink.write(&bytes[at..]) {
            Ok(count) => at += count,
            Err(Failed) => failed = failed.saturating_add(1),
        }
    }
    failed
}

// Whether a source gives the text whole, and fails so often.
fn gives<S: Source>(alloc: Global, source: &mut S, failing: u64) -> Result<bool, AllocError> {
    let (bytes, failed) = drained(alloc, source)?;
    Ok(bytes.as_slice() == TEXT && failed == failing)
}

// Whether a source of the text in such pieces gives it whole.
fn is_given(alloc: Global, piece: usize) -> Result<bool, AllocError>
    requires { 0 < piece }
{
    let mut source = MemorySource::new(Vec::from_slice(alloc, TEXT)?, piece);
    gives(alloc, &mut source, 0)
}

// The same where the second and the third call fail.
fn is_given_between_faults(alloc: Global, piece: usize) -> Result<bool, AllocError>
    requires { 0 < piece }
{
    let text = Vec::from_slice(alloc, TEXT)?;
    let mut source = FaultySource::new(text, piece, vec![in alloc; 2, 3]?);
    gives(alloc, &mut source, 2)
}

#[test]
fn sources_give_all_their_bytes(rt: HostRuntime) -> Result<(), Fail> {
    for piece in [1, 3, usize::MAX] {
        assert!(rt; is_given(rt.alloc(), piece)?);
        assert!(rt; is_given_between_faults(rt.alloc(), piece)?);
    }
    Ok(())
}

// Whether a sink that takes the text in such pieces holds it.
fn is_held(alloc: Global, piece: usize) -> bool
    requires { 0 < piece }
{
    let mut sink = MemorySink::new(alloc, piece);
    let failed = filled(&mut sink, TEXT);
    let same = sink.bytes() == TEXT;
    failed == 0 && same && sink.into_bytes().as_slice() == TEXT
}

// The same where the first call fails.
fn is_held_behind_a_fault(alloc: Global, piece: usize) -> Result<bool, AllocError>
    requires { 0 < piece }
{
    let mut sink = FaultySink::new(alloc, piece, vec![in alloc; 1]?);
    let failed = filled(&mut sink, TEXT);
    let same = sink.bytes() == TEXT;
    Ok(failed == 1 && same && sink.into_bytes().as_slice() == TEXT)
}

#[test]
fn sinks_hold_all_that_they_take(rt: HostRuntime) -> Result<(), Fail> {
    for piece in [1, 3, usize::MAX] {
        assert!(rt; is_held(rt.alloc(), piece));
        assert!(rt; is_held_behind_a_fault(rt.alloc(), piece)?);
    }
    Ok(())
}

// A reader and writer of the system whose calls fail once, and then give and take two bytes.
#[derive(Drop)]
struct Halting {
    calls: u64,
}

impl Halting {
    fn turn(&mut self, room: usize) -> io::Result<usize>
        ensures { IfOk result (λ n. n ≤ room) }
    {
        self.calls = self.calls.saturating_add(1);
        match self.calls {
            1 => Err(io::Error::from(ErrorKind::BrokenPipe)),
            2 => Ok(room.min(2)),
            _ => Ok(0),
        }
    }
}

impl Read for Halting {
    fn read(&mut self, buf: &mut [u8]) -> io::Result<usize> {
        let room = buf.len();
        self.turn(room)
    }
}

impl Write for Halting {
    fn write(&mut self, buf: &[u8]) -> io::Result<usize> {
        self.turn(buf.len())
    }

    fn flush(&mut self) -> io::Result<()> {
        Ok(())
    }
}

// What four bytes' reads answer, three times.
fn three_reads<R: Read>(source: &mut ReaderSource<R>) -> [Result<usize, Failed>; 3] {
    let mut into = [0u8; 4];
    [
        source.read(&mut into),
        source.read(&mut into),
        source.read(&mut into),
    ]
}

// What writes of the text answer, three times, and then one of nothing.
fn four_writes<W: Write>(sink: &mut WriterSink<W>) -> [Result<usize, Failed>; 4] {
    [
        sink.write(TEXT),
        sink.write(TEXT),
        sink.write(TEXT),
        sink.write(&[]),
    ]
}

#[test]
fn adapters_count_errors_and_idle_writes(rt: HostRuntime) -> Result<(), Fail> {
    let mut source = ReaderSource::new(Halting { calls: 0 });
    assert!(rt; three_reads(&mut source) == [Err(Failed), Ok(2), Ok(0)]);
    let mut sink = WriterSink::new(Halting { calls: 0 });
    assert!(rt; four_writes(&mut sink) == [Err(Failed), Ok(2), Err(Failed), Ok(0)]);
    Ok(())
}

// Whether two writes that overlap succeed, and the disk then has nine bytes.
fn is_written(disk: &mut MemoryDisk, moments: &mut u64) -> bool
    requires { disk.old.held ≡ [] }
{
    disk.write_at(0, b"seven", moments).is_ok()
        && disk.write_at(4, b"words", moments).is_ok()
        && disk.len(moments) == Ok(9)
}

// Whether a read of four bytes gives these.
fn reads(disk: &mut MemoryDisk, at: u64, moments: &mut u64, wanted: &[u8]) -> bool {
    let mut into = [0u8; 4];
    match disk.read(at, &mut into, moments) {
        Ok(count) => &into[..count] == wanted,
        Err(Failed) => false,
    }
}

#[test]
fn a_disk_keeps_what_is_written(rt: HostRuntime) -> Result<(), Fail> {
    let mut disk = MemoryDisk::new(rt.alloc());
    let mut moments = 0u64;
    let written = is_written(&mut disk, &mut moments);
    let whole = reads(&mut disk, 2, &mut moments, b"vewo");
    let cut = disk.cut(3, &mut moments) == Ok(());
    let short = reads(&mut disk, 2, &mut moments, b"v");
    let end = reads(&mut disk, 3, &mut moments, b"");
    let synced = disk.sync(&mut moments) == Ok(());
    let counted = (moments, disk.faults()) == (8, 0);
    assert!(rt; written && whole && cut && short && end && synced && counted);
    Ok(())
}

// Whether a home has no faults, and a question for a length is answered by none and counted.
fn begins(home: &mut Four<MemoryDisk>) -> bool {
    let none = home.j0.len(&mut home.moments) == Ok(0);
    none && home.moments == 1 && home.faults() == 0
}

// The same of the homes of seven.
fn begin(homes: &mut Seven<MemoryDisk>) -> bool {
    let none = homes.seven.i1.len(&mut homes.seven.moments) == Ok(0);
    none && homes.faults() == 0
}

fn is_home_blank(alloc: Global) -> bool {
    let mut home = Four::blank(alloc);
    let blank = begins(&mut home);
    drop(home);
    blank
}

fn are_homes_blank(alloc: Global) -> bool {
    let mut homes = Seven::blank(alloc);
    let blank = begin(&mut homes);
    drop(homes);
    blank
}

#[test]
fn homes_begin_blank(rt: HostRuntime) {
    assert!(rt; is_home_blank(rt.alloc()));
    assert!(rt; are_homes_blank(rt.alloc()));
}
