//! A home over the files of a folder: opened, adopted by a storage, and made anew. It is timed from outside, by
//! bench/homes.sh.
#![tactic(auto)]

ghost use Rattle.kp_homes.specs.Opening.{IsWithin};

use anyhow::Result;
use kp_disks::file_home;
use kp_entry::Records;
use kp_homes::{Home, Kept0, Whole};
use kp_io::Disk;
use kp_model::NoMemory;
use kp_snapshot::Image;
use kp_storage::Storage;
use std::alloc::Global;
use std::{env, fs};

/// How far a run goes.
#[derive(Clone, Copy)]
enum Work {
    /// The home is opened.
    Read,
    /// A storage adopts what was found, and its memory is told.
    Adopt,
    /// The home gets the storage's image in a new slot.
    Write,
}

fn work_of(word: Option<String>) -> Work {
    match word {
        Some(word) => named(word.as_str()),
        None => Work::Read,
    }
}

fn named(word: &str) -> Work {
    match word {
        "adopt" => Work::Adopt,
        "write" => Work::Write,
        _ => Work::Read,
    }
}

// The folder in which the program runs, where none is named.
fn folder_of(word: &Option<String>) -> &str {
    match word {
        Some(word) => word.as_str(),
        None => ".",
    }
}

fn main(rt: HostRuntime) -> Result<()> {
    let mut args = env::args(&rt)?;
    let _program = args.next();
    let work = work_of(args.next());
    let folder = args.next();
    let disks = file_home(rt.alloc(), rt, rt, folder_of(&folder), 1)?;
    match Home::open(rt.alloc(), disks, 1) {
        Ok((home, kept)) => go(rt, home, kept, work),
        Err((fail, disks)) => {
            drop(disks);
            println!(rt; "{fail:?}")?;
            Ok(())
        }
    }
}

fn go<H: Disk + Drop>(rt: HostRuntime, home: Home<H>, kept: Kept0, work: Work) -> Result<()>
    requires { IsWithin kept.image kept.rest.items }
{
    let mut home = home;
    println!(rt; "{} entries", kept.rest.len())?;
    let told = match work {
        Work::Read => {
            drop(kept);
            Ok(())
        }
        Work::Adopt => adopt(rt, kept),
        Work::Write => write(rt, &mut home, kept),
    };
    drop(home);
    told
}

// Tells how many nodes a storage has that adopts this, and the memory that the run has taken.
fn adopt(rt: HostRuntime, kept: Kept0) -> Result<()>
    requires { IsWithin kept.image kept.rest.items }
{
    match adopted(rt.alloc(), kept) {
        Ok(storage) => {
            let nodes = storage.node_count();
            let told = tell_memory(rt);
            drop(storage);
            println!(rt; "{nodes} nodes")?;
            told
        }
        Err(_) => no_memory(rt),
    }
}

fn no_memory(rt: HostRuntime) -> Result<()> {
    println!(rt; "no memory")?;
    Ok(())
}

fn tell_memory(rt: HostRuntime) -> Result<()> {
    let status = fs::read_to_string(&rt, "/proc/self/status")?;
    let told = tell_lines(rt, status.as_str());
    drop(status);
    told
}

fn tell_lines(rt: HostRuntime, status: &str) -> Result<()> {
    for line in status.lines() {
        if line.starts_with("VmHWM") || line.starts_with("VmRSS") {
            println!(rt; "{line}")?;
        }
    }
    Ok(())
}

// The storage that adopts what was found.
fn adopted(alloc: Global, kept: Kept0) -> Result<Storage, NoMemory>
    requires { IsWithin kept.image kept.rest.items }
{
    match Storage::new(alloc) {
        Ok(storage) => {
            let mut storage = storage;
            let taken = take(&mut storage, &kept);
            drop(kept);
            match taken {
                Ok(()) => Ok(storage),
                Err(none) => {
                    drop(storage);
                    Err(none)
                }
            }
        }
        Err(none) => {
            drop(kept);
            Err(none)
        }
    }
}

fn take(storage: &mut Storage, kept: &Kept0) -> Result<(), NoMemory>
    requires { IsWithin kept.now.image kept.now.rest.items }
{
    match &kept.image {
        Some(image) => storage.adopt(image, kept.rest.as_slice()),
        None => Ok(()),
    }
}

// Puts the image of the storage that adopts this into a new slot of the home.
fn write<H: Disk>(rt: HostRuntime, home: &mut Home<H>, kept: Kept0) -> Result<()>
    requires { IsWithin kept.image kept.rest.items }
{
    match adopted(rt.alloc(), kept) {
        Ok(storage) => {
            let image = storage.image(1);
            drop(storage);
            match image {
                Ok(image) => renew(rt, home, image),
                Err(_) => no_memory(rt),
            }
        }
        Err(_) => no_memory(rt),
    }
}

// Makes the home stand for the image, with no vote in term 1 behind it.
fn renew<H: Disk>(rt: HostRuntime, home: &mut Home<H>, image: Image) -> Result<()> {
    let whole = Whole {
        image: Some(image),
        rest: Records::new(rt.alloc()),
    };
    let done = home.compact(&whole);
    drop(whole);
    match done {
        Ok(()) => println!(rt; "written")?,
        Err(fail) => println!(rt; "{fail:?}")?,
    }
    Ok(())
}
