// A disk over the operating system's files: the trusted edge. Nothing is proved about what the files hold.
ghost use Rattle.std.specs.Prelude.{◌≡◌, ◌≤◌, ◌^◌, [], length, IfOk, IsErr, is_ok};
ghost use Rattle.iss_disk.specs.Calls.{HasCause, untold};

use crate::{Disk, EndError, Failed, NoMemory};
use std::alloc::Global;
use std::fs::{File, OpenOptions};
use std::io;
use std::os::unix::fs::FileExt;
use std::rt::Files;

/// A disk over the operating system's files. Each call that the system refuses is a fault, and so is each call before a
/// file is attached.
#[derive(Drop)]
pub struct FileDisk<R: Files<File = File>> {
    files: R,
    alloc: Global,
    name: Vec<u8>,
    file: Option<File>,
    faults: u64,
}

impl<R: Files<File = File>> FileDisk<R> {
    /// A disk with no file attached.
    pub fn new(files: R, alloc: Global) -> Self
        ensures { result.faults ≡ 0 }
    {
        FileDisk {
            files,
            alloc,
            name: Vec::new(alloc),
            file: None,
            faults: 0,
        }
    }
}

// Counts a fault if the system refused the call.
fn count_fault<T: Drop>(answer: io::Result<T>, faults: &mut u64) -> Result<T, Failed>
    ensures value { IfOk result (λ value. answer ≡ Ok value) }
    ensures cause { HasCause faults.old faults.new (IsErr result) }
{
    match answer {
        Ok(value) => Ok(value),
        Err(_) => {
            *faults = faults.saturating_add(1);
            Err(Failed)
        }
    }
}

fn attached(file: &Option<File>) -> io::Result<&File> {
    match file {
        Some(file) => Ok(file),
        None => Err(io::ErrorKind::NotFound.into()),
    }
}

// The folder that holds the file of this name.
fn folder_of(name: &str) -> &str {
    match name.rsplit_once('/') {
        Some(("", _)) => "/",
        Some((folder, _)) => folder,
        None => ".",
    }
}

// Opens a file, and creates it if it does not exist. Its folder is synced, so that a crash does not lose a new file's
// name.
fn open<R: Files<File = File>>(files: &R, name: &str) -> io::Result<File> {
    let file = OpenOptions::new()
        .read(true)
        .write(true)
        .create(true)
        .open(files, name)?;
    File::open(files, folder_of(name))?.sync_all()?;
    Ok(file)
}

fn length_of(file: &Option<File>) -> io::Result<u64> {
    Ok(attached(file)?.metadata()?.len())
}

fn read(file: &Option<File>, at: u64, into: &mut [u8]) -> io::Result<usize>
    ensures { IfOk result (λ n. n ≤ length into.old) }
{
    attached(file)?.read_at(into, at)
}

impl<R: Files<File = File>> Disk for FileDisk<R> {
    ghost use Rattle.std.specs.Prelude.{[], ◌^◌, refl};
    ghost use Rattle.iss_disk.specs.Calls.{untold};
    ghost use Rattle.iss_disk.specs.Internal.Untold.{nothing_told};

    ghost state = { λ disk. record {
      history = [];
      files = λ name. [];
      current = record { name = disk.name.items; borrows = [] };
      faults = disk.faults;
      passes = untold;
      room = record { calls = 2 ^ 64; bytes = 2 ^ 64 };
    } };

    fn attach(&mut self, name: &str) -> Result<(), EndError> {
        let kept = Vec::from_slice(self.alloc, name.as_bytes())?;
        let opened = open(&self.files, name);
        let file = count_fault(opened, &mut self.faults)?;
        self.name = kept;
        self.file = Some(file);
        Ok(())
    }

    fn reserve(&mut self, _calls: u64, _bytes: u64) -> Result<(), NoMemory> {
        Ok(())
    }

    fn length(&mut self) -> Result<u64, Failed> {
        count_fault(length_of(&self.file), &mut self.faults)
    }

    fn read_at(&mut self, at: u64, into: &mut [u8]) -> Result<usize, Failed> {
        count_fault(read(&self.file, at, into), &mut self.faults)
    }

    fn write_at(&mut self, at: u64, bytes: &[u8]) -> Result<(), Failed> {
        let written = attached(&self.file).and_then(|file| file.write_all_at(bytes, at));
        count_fault(written, &mut self.faults)
    }

    fn cut(&mut self, len: u64) -> Result<(), Failed> {
        let cut = attached(&self.file).and_then(|file| file.set_len(len));
        count_fault(cut, &mut self.faults)
    }

    fn sync(&mut self) -> Result<(), Failed> {
        let synced = attached(&self.file).and_then(|file| file.sync_data());
        count_fault(synced, &mut self.faults)
    }

    ghost here = { λ disk. refl };

    ghost read_is_image = { λ disk name file past is. nothing_told file past is };
}
