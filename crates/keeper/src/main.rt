//! The program: it makes the real objects, hands them to the top call, and ends with the number of its status.
#![tactic(auto)]

mod help;
mod told;

use crate::help::asked_for;
use crate::told::tell;
use kp_disks::file_homes;
use kp_io::{ReaderSource, WriterSink};
use kp_top::{Status, run_command};
use std::env;
use std::process::ExitCode;
use std::rt::Env;

/// The folder of the homes, below the one that the program is started in.
const DATA: &str = "keeper-data";

/// The words behind the program's name; None without memory for them.
fn words(rt: &(impl Env + AllocGlobal)) -> Option<Vec<String>> {
    let mut words = Vec::new(rt.alloc());
    let Ok(args) = env::args(rt) else {
        return None;
    };
    for word in args.skip(1) {
        if words.push(word).is_err() {
            return None;
        }
    }
    Some(words)
}

/// Does what the words say, over standard input and output and the homes in files.
fn run(rt: &HostRuntime, words: &[String]) -> Status {
    let alloc = rt.alloc();
    let Ok(mut homes) = file_homes(alloc, *rt, *rt, DATA) else {
        return Status::NoMemory;
    };
    let mut input = ReaderSource::new(rt.stdin());
    let mut output = WriterSink::new(rt.stdout());
    let status = run_command(alloc, words, &mut input, &mut output, &mut homes);
    drop(homes);
    status
}

/// Prints a text on standard output.
fn print(rt: &HostRuntime, text: &str) -> Status {
    match print!(rt; "{text}") {
        Ok(()) => Status::Done,
        Err(_) => Status::WriteFault,
    }
}

/// Prints what the words ask for before any command, or does what they say.
fn answer(rt: &HostRuntime, words: &[String]) -> Status {
    match asked_for(words) {
        Some(text) => print(rt, text),
        None => run(rt, words),
    }
}

fn main(rt: HostRuntime) -> ExitCode {
    let status = match words(&rt) {
        Some(words) => answer(&rt, words.as_slice()),
        None => Status::NoMemory,
    };
    tell(&rt, &status);
    ExitCode::from(status.code())
}
