//! Runs of a command line, on blank homes.
ghost use Rattle.std.specs.Prelude.{◌<◌};

use kp_io::{MemorySink, MemorySource, Seven, Sink, Source};
use kp_top::{Status, run_command};
use std::alloc::{AllocError, Global};

/// The number of a status, and that of the line which it names, or 0.
pub type End = (u8, u64);

/// The status 0.
pub const DONE: End = (0, 0);

// What a status tells.
fn told(status: &Status) -> End {
    match status {
        Status::BadLine { n } => (status.code(), *n),
        _ => (status.code(), 0),
    }
}

// How a run of these words ends.
fn end_in<S: Source, W: Sink>(
    alloc: Global,
    words: &[String],
    input: &mut S,
    output: &mut W,
) -> End {
    let mut homes = Seven::blank(alloc);
    let status = run_command(alloc, words, input, output, &mut homes);
    drop(homes);
    told(&status)
}

/// The words of a command line.
pub fn words_of(alloc: Global, words: &str) -> Result<Vec<String>, AllocError> {
    let mut list = Vec::new(alloc);
    for word in words.split(' ') {
        list.push(String::from_str(alloc, word)?)?;
    }
    Ok(list)
}

/// How a run of these words ends, over this input and output.
pub fn end_of<S: Source, W: Sink>(
    alloc: Global,
    words: &str,
    input: &mut S,
    output: &mut W,
) -> Result<End, AllocError> {
    let list = words_of(alloc, words)?;
    Ok(end_in(alloc, list.as_slice(), input, output))
}

/// Whether a run of these words on this text, in such pieces, prints this and ends so.
pub fn prints(
    alloc: Global,
    words: &str,
    text: Vec<u8>,
    piece: usize,
    printed: &[u8],
    end: End,
) -> Result<bool, AllocError>
    requires { 0 < piece }
{
    let mut input = MemorySource::new(text, piece);
    let mut output = MemorySink::new(alloc, piece);
    let ended = end_of(alloc, words, &mut input, &mut output)?;
    Ok(ended == end && output.bytes() == printed)
}
