ghost use Rattle.std.specs.Prelude.{◌≡◌, ◌+◌, ◌^◌, ◌≤◌, length, None};
ghost use Rattle.std.specs.Io.{ReadsAtMost};
ghost use Rattle.kp_io.specs.Faults.{one_more};

use crate::counts::raised;
use kp_io::{Disk, Failed};
use std::fs::{File, Files, OpenOptions};
use std::io::{self, ErrorKind, Print};
use std::marker::Model;
use std::os::unix::fs::FileExt;

// How often a read that a signal interrupts is tried.
const TRIES: u32 = 1000;

/// A disk over a file of the system. A file that is not there has length 0, and is made at its
/// first write. The first sync of a file syncs its folder too, since a power loss may else take
/// the name of a file whose bytes are synced.
///
/// A call that fails prints a line with the file's path. After a sync that failed no later one
/// succeeds: the system may have dropped what it could not write. So a caller that goes on knows
/// nothing of a crash until it opens the file anew.
#[derive(Drop)]
pub struct FileDisk<R: Files<File = File>, E: Print> {
    files: R,
    errors: E,
    folder: String,
    path: String,
    file: Option<File>,
    len: u64,
    is_named: bool,
    is_lost: bool,
    faults: u64,
}

impl<R: Files<File = File>, E: Print> Model for FileDisk<R, E> {
    ghost use Rattle.kp_disks.specs.Files.{FilePlate};

    ghost Value = { FilePlate };

    ghost view = { λ d. record { faults = d.faults } };
}

// Reads bytes that are there.
fn read_some(file: &File, at: u64, into: &mut [u8]) -> io::Result<usize>
    ensures { ReadsAtMost result into.new }
{
    for _ in 0..TRIES {
        match file.read_at(into, at) {
            Ok(0) => return Err(ErrorKind::UnexpectedEof.into()),
            Ok(count) => return Ok(count),
            Err(error) if error.kind() == ErrorKind::Interrupted => {}
            Err(error) => return Err(error),
        }
    }
    Err(ErrorKind::Interrupted.into())
}

impl<R: Files<File = File>, E: Print> FileDisk<R, E> {
    /// A disk over the file at `path`, which lies in `folder`. Nothing is opened yet. Faults are
    /// told on `errors`.
    pub fn new(files: R, errors: E, folder: String, path: String) -> FileDisk<R, E>
        ensures { result ≡ record { faults = 0 } }
    {
        FileDisk {
            files,
            errors,
            folder,
            path,
            file: None,
            len: 0,
            is_named: false,
            is_lost: false,
            faults: 0,
        }
    }

    // Gives the disk its file, before anything is opened.
    pub(crate) fn place(&mut self, folder: String, path: String)
        ensures { self.new ≡ self.old }
    {
        self.folder = folder;
        self.path = path;
    }

    // The file, opened. One that may not be written is opened to be read: then a write fails.
    fn opened(&self) -> io::Result<File> {
        let path = self.path.as_str();
        let mut how = OpenOptions::new();
        how.read(true).write(true);
        match how.open(&self.files, path) {
            Err(error) if error.kind() == ErrorKind::PermissionDenied => {
                File::open(&self.files, path)
            }
            Err(error) if error.kind() == ErrorKind::ReadOnlyFilesystem => {
                File::open(&self.files, path)
            }
            opened => opened,
        }
    }

    // Opens the file where it is there.
    fn look(&mut self) -> io::Result<()>
        ensures { self.new ≡ self.old }
    {
        if self.file.is_some() {
            return Ok(());
        }
        match self.opened() {
            Ok(file) => {
                self.len = file.metadata()?.len();
                self.file = Some(file);
                Ok(())
            }
            Err(error) if error.kind() == ErrorKind::NotFound => Ok(()),
            Err(error) => Err(error),
        }
    }

    // Opens the file, and makes it where it is not there.
    fn look_or_make(&mut self) -> io::Result<()>
        ensures { self.new ≡ self.old }
    {
        self.look()?;
        if self.file.is_some() {
            return Ok(());
        }
        let mut how = OpenOptions::new();
        how.read(true).write(true).create_new(true);
        self.file = Some(how.open(&self.files, self.path.as_str())?);
        self.len = 0;
        Ok(())
    }

    // The file's length. One that is shorter than it was is a fault.
    fn measured(&mut self) -> io::Result<u64>
        ensures { self.new ≡ self.old }
    {
        self.look()?;
        let Some(file) = &self.file else {
            return Ok(0);
        };
        let len = file.metadata()?.len();
        if len < self.len {
            return Err(ErrorKind::UnexpectedEof.into());
        }
        self.len = len;
        Ok(len)
    }

    // Reads from a place below the length.
    fn taken(&mut self, at: u64, into: &mut [u8]) -> io::Result<usize>
        ensures bound { ReadsAtMost result into.new }
        ensures keeps { self.new ≡ self.old }
    {
        self.look()?;
        match &self.file {
            Some(file) if at < self.len && !into.is_empty() => read_some(file, at, into),
            _ => Ok(0),
        }
    }

    fn put(&mut self, at: u64, bytes: &[u8]) -> io::Result<()>
        requires end { at + length bytes.now ≤ 2 ^ 40 }
        ensures { self.new ≡ self.old }
    {
        self.look_or_make()?;
        if let Some(file) = &self.file {
            file.write_all_at(bytes, at)?;
            self.len = self.len.max(at + bytes.len() as u64);
        }
        Ok(())
    }

    fn shortened(&mut self, len: u64) -> io::Result<()>
        ensures { self.new ≡ self.old }
    {
        self.look()?;
        if let Some(file) = &self.file {
            if len < file.metadata()?.len() {
                file.set_len(len)?;
            }
            self.len = self.len.min(len);
        }
        Ok(())
    }

    // Syncs the folder that the file's name stands in.
    fn name(&self) -> io::Result<()> {
        File::open(&self.files, self.folder.as_str())?.sync_all()
    }

    fn settled(&mut self) -> io::Result<()>
        ensures { self.new ≡ self.old }
    {
        if self.is_lost {
            return Err(ErrorKind::Other.into());
        }
        self.look()?;
        if let Some(file) = &self.file {
            self.is_lost = true;
            file.sync_data()?;
            if !self.is_named {
                self.name()?;
                self.is_named = true;
            }
            self.is_lost = false;
        }
        Ok(())
    }

    // Counts a fault, and says which file had it.
    fn fail(&mut self, what: &str, error: io::Error) -> Failed
        ensures { self.new ≡ record self.old { faults = one_more self.old.faults } }
    {
        let path = self.path.as_str();
        let _ = self
            .errors
            .println(format_args!("keeper: {path}: {what}: {error}"));
        self.faults = raised(self.faults);
        Failed
    }
}

impl<R: Files<File = File>, E: Print> Disk for FileDisk<R, E> {
    ghost held = { λ d. None };

    ghost past = { λ d. None };

    ghost faults = { λ d. d.faults };

    fn len(&mut self, moments: &mut u64) -> Result<u64, Failed> {
        *moments = raised(*moments);
        match self.measured() {
            Ok(len) => Ok(len),
            Err(error) => Err(self.fail("length", error)),
        }
    }

    fn read(&mut self, at: u64, into: &mut [u8], moments: &mut u64) -> Result<usize, Failed> {
        *moments = raised(*moments);
        match self.taken(at, into) {
            Ok(count) => Ok(count),
            Err(error) => Err(self.fail("read", error)),
        }
    }

    fn write_at(&mut self, at: u64, bytes: &[u8], moments: &mut u64) -> Result<(), Failed> {
        *moments = raised(*moments);
        match self.put(at, bytes) {
            Ok(()) => Ok(()),
            Err(error) => Err(self.fail("write", error)),
        }
    }

    fn cut(&mut self, len: u64, moments: &mut u64) -> Result<(), Failed> {
        *moments = raised(*moments);
        match self.shortened(len) {
            Ok(()) => Ok(()),
            Err(error) => Err(self.fail("cut", error)),
        }
    }

    fn sync(&mut self, moments: &mut u64) -> Result<(), Failed> {
        *moments = raised(*moments);
        match self.settled() {
            Ok(()) => Ok(()),
            Err(error) => Err(self.fail("sync", error)),
        }
    }

    fn faults(&self) -> u64 {
        self.faults
    }
}
