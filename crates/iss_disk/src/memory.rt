// A disk in memory.
ghost use Rattle.std.specs.Prelude.{◌≡◌, ℕ, List, [], ◌∷◌, IfOk};
ghost use Rattle.iss_disk.specs.File.{settled};
ghost use Rattle.iss_disk.specs.Calls.{Restarts};
ghost use Rattle.iss_disk.specs.Internal.Lists.{IsCopied};
ghost use Rattle.iss_disk.specs.Internal.Taken.{IsTaken};
ghost use Rattle.iss_disk.specs.StoredViews.{history_of};
ghost use Rattle.iss_disk.specs.MemoryViews.{history_among};

use crate::fate::Fate;
use crate::stored::StoredFile;
use crate::{Disk, EndError, Failed, Fused, NoMemory};
use std::alloc::{AllocError, Global};
use std::mem;

/// A disk in memory, which knows the past states of all its files. It records its writes, cuts and syncs.
#[derive(Drop)]
pub struct MemoryDisk {
    alloc: Global,
    file: StoredFile,
    others: Vec<StoredFile>,
    fate: Fate,
    faults: u64,
}

impl MemoryDisk {
    ghost use Rattle.iss_disk.specs.MemoryViews.{HasOutcomes, IsNew, state_of};

    /// A disk whose calls all succeed. All its files are empty, and the file with the empty name is the current one.
    pub fn new(alloc: Global) -> Result<MemoryDisk, AllocError>
        ensures { IfOk result (λ disk. IsNew (state_of disk)) }
    {
        Ok(MemoryDisk {
            alloc,
            file: StoredFile::new(alloc, "")?,
            others: Vec::new(alloc),
            fate: Fate::Sound,
            faults: 0,
        })
    }

    /// The same disk, whose next calls succeed or fail as listed; all later calls succeed.
    pub fn with_outcomes(self, outcomes: Vec<bool>) -> MemoryDisk
        ensures { HasOutcomes outcomes.items (state_of self) (state_of result) }
    {
        let MemoryDisk {
            alloc,
            file,
            others,
            fate: _,
            faults,
        } = self;
        MemoryDisk {
            alloc,
            file,
            others,
            fate: Fate::Scripted { made: 0, outcomes },
            faults,
        }
    }
}

// Removes the file with the new file's name and returns it, or returns the new file if there is none.
fn take_named(others: &mut Vec<StoredFile>, fresh: StoredFile) -> StoredFile
    requires { history_of fresh ≡ settled [] ∷ [] }
    ensures { IsTaken fresh.name.items others.old others.new result }
{
    for i in 0..others.len() {
        if others[i].name == fresh.name {
            return others.remove(i);
        }
    }
    fresh
}

// Leaves of each file what was synced.
fn restart_all(files: &mut [StoredFile])
    ensures { (name : List ℕ) → Restarts (history_among files.old name) (history_among files.new name) }
{
    for i in 0..files.len() {
        let file = &mut files[i];
        file.restart();
    }
}

impl Disk for MemoryDisk {
    ghost use Rattle.iss_disk.specs.MemoryViews.{state_of};
    ghost use Rattle.iss_disk.specs.MemoryLaws.{memory_here, memory_read_is_image};

    ghost state = { state_of };

    fn attach(&mut self, name: &str) -> Result<(), EndError> {
        let fresh = StoredFile::new(self.alloc, name)?;
        self.others.reserve(1)?;
        self.fate.take(&mut self.faults)?;
        if self.file.name != fresh.name {
            let next = take_named(&mut self.others, fresh);
            let former = mem::replace(&mut self.file, next);
            let _ = self.others.insert(0, former);
        }
        Ok(())
    }

    fn reserve(&mut self, calls: u64, bytes: u64) -> Result<(), NoMemory> {
        self.file.reserve(calls, bytes)
    }

    fn length(&mut self) -> Result<u64, Failed> {
        self.fate.take(&mut self.faults)?;
        Ok(self.file.content.len() as u64)
    }

    fn read_at(&mut self, at: u64, into: &mut [u8]) -> Result<usize, Failed> {
        self.fate.take(&mut self.faults)?;
        Ok(copy_from(&self.file.content, at as usize, into))
    }

    #[inline(always)]
    fn write_at(&mut self, at: u64, bytes: &[u8]) -> Result<(), Failed> {
        self.fate.take(&mut self.faults)?;
        self.file.write(at as usize, bytes);
        Ok(())
    }

    fn cut(&mut self, len: u64) -> Result<(), Failed> {
        self.fate.take(&mut self.faults)?;
        self.file.cut(len as usize);
        Ok(())
    }

    #[inline(always)]
    fn sync(&mut self) -> Result<(), Failed> {
        self.fate.take(&mut self.faults)?;
        self.file.sync();
        Ok(())
    }

    ghost here = { memory_here };

    ghost read_is_image = { memory_read_is_image };
}

// Copies bytes from offset `at` into the slice, as many as there are and fit. Returns how many.
fn copy_from(content: &[u8], at: usize, into: &mut [u8]) -> usize
    ensures { IsCopied at content.now into.old into.new result }
{
    if at >= content.len() {
        return 0;
    }
    let count = into.len().min(content.len() - at);
    into[..count].copy_from_slice(&content[at..at + count]);
    count
}

impl Fused for MemoryDisk {
    fn fuse(&mut self, calls: u64) {
        self.fate = Fate::Fused(calls);
    }

    // rule: Disk: A crash may change only bytes written since the last sync
    fn restart(&mut self) {
        self.file.restart();
        restart_all(&mut self.others);
        self.fate = Fate::Sound;
    }
}
