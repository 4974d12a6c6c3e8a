// A journal over a disk.
ghost use Rattle.std.specs.Prelude.{◌≡◌, ◌≤◌, ◌<◌, ◌++◌, ℕ, [], true, false, length, is_ok, OnOk, OnErr, IsErrOf};

use crate::errors::AttachError;
use crate::keep::keep_entry;
use crate::load::load;
use crate::reserved::{Reserved, left_behind};
use crate::retained::Retained;
use crate::shared::SharedEntries;
use iss_disk::{Disk, EndError, Fused, NoMemory};
use iss_request::Bytes;
use std::alloc::Global;
use std::marker::Model;

// Room is made for this many entries at once, and for `SOME_BYTES` bytes more than requested.
const SOME_ENTRIES: u64 = 64;

const SOME_BYTES: u64 = 4096;

/// A list of entries in the current file of a disk. Each entry is durable before its `append` returns Ok. The file
/// keeps all entries, and the journal those that stay: the snapshots, whose first byte is 5, and all that follows the
/// last of them.
#[derive(Drop)]
pub struct Journal<D: Disk> {
    alloc: Global,
    disk: D,
    kept: Retained,
    attached: bool,
    // The entries for which there is room.
    reserved: Reserved,
}

impl<D: Disk> Model for Journal<D> {
    ghost use Rattle.iss_journal.specs.Sound.{IsSound, JournalState, state_over};

    ghost Value = { JournalState D };

    ghost view = { λ v. state_over v.disk v.kept v.attached v.reserved };

    ghost invariant = { λ v. IsSound (D.state v.disk) v.kept v.attached v.reserved };
}

impl<D: Disk> Journal<D> {
    ghost use Rattle.std.specs.Prelude.{get_or};
    ghost use Rattle.iss_journal.specs.Frames.{max_entry, version_1};
    ghost use Rattle.iss_journal.specs.Promises.{LosesNone, StaysDamaged};
    ghost use Rattle.iss_journal.specs.SharedViews.{shared_in};
    ghost use Rattle.iss_journal.specs.Sound.{Appends, IsAppended, IsAttached, IsBroken, NothingChanged, OnlyMoreRoom};

    /// A journal over the current file of a disk. It is not attached yet.
    pub fn over(alloc: Global, disk: D) -> Self
        ensures disk { result.disk ≡ disk }
        ensures entries { result.entries ≡ [] }
        ensures attached { result.attached ≡ false }
    {
        Journal {
            alloc,
            disk,
            kept: Retained::new(alloc),
            attached: false,
            reserved: Reserved {
                entries: 0,
                limit: 0,
            },
        }
    }

    /// Syncs and reads the file, and cuts off what follows its last gate. A file of at most one byte becomes an empty
    /// journal. The errors: `Damaged` if an open gate is not followed by a whole entry, `Failed` if the device fails,
    /// `NoMemory` if out of memory. After an error the entries are those from before the call. A damaged file stays as
    /// it is, byte for byte, so that it is damaged at each later call too.
    pub fn attach(&mut self) -> Result<(), AttachError>
        ensures ok { OnOk result (IsAttached version_1 self.new.entries self.new.gates (D.state self.old.disk).history
            (D.state self.new.disk).history) }
        ensures damaged { (at : ℕ) → IsErrOf result (AttachError.Damaged at) →
            StaysDamaged version_1 at (D.state self.old.disk).history (D.state self.new.disk).history }
        ensures err { OnErr result (self.new.entries ≡ self.old.entries) }
        ensures attached { self.new.attached ≡ is_ok result }

        // A crash at any moment of the call loses no entry that every crash image held before it.
        ensures loses { LosesNone version_1 (IsErrOf result AttachError.Failed) (D.state self.old.disk)
            (D.state self.new.disk) }
    {
        self.attached = false;
        self.reserved.limit = 0;
        // A sync, a cut, a write and a sync.
        self.disk.reserve(4, 1)?;
        self.disk.sync()?;
        let all = load(self.alloc, &mut self.disk)?;
        let kept = Retained::of(self.alloc, &all)?;
        self.kept = kept;
        self.attached = true;
        Ok(())
    }

    /// The disk.
    pub fn into_disk(self) -> D
        ensures { result ≡ self.disk }
    {
        self.disk
    }

    /// Whether entries may be appended: from an `attach` that is Ok until a call of the device fails.
    pub fn attached(&self) -> bool
        ensures { result ≡ self.now.attached }
    {
        self.attached
    }

    /// The entries.
    pub fn entries(&self) -> &SharedEntries
        ensures { shared_in result.now ≡ self.now.entries }
    {
        self.kept.entries()
    }

    /// The offset in the file of the gate of entry `k`, counted from 0.
    pub fn gate_of(&self, k: usize) -> u64
        requires { k < length self.now.entries }
        ensures { result ≡ get_or self.now.gates k 0 }
    {
        self.kept.gate_of(k)
    }

    /// Makes the room that appending an entry of `bytes` bytes needs, in memory and on the disk. Nothing else changes.
    /// Without memory the room is what it was.
    #[inline(always)]
    pub fn reserve(&mut self, bytes: u64) -> Result<(), NoMemory>
        ensures ok { OnOk result (bytes < self.new.reserved.limit) }
        ensures ready { bytes < self.old.reserved.limit → is_ok result ≡ true }
        ensures no_memory { OnErr result (self.new.reserved ≡ self.old.reserved) }
        ensures only { OnlyMoreRoom self.old self.new (D.state self.old.disk) (D.state self.new.disk) }
    {
        if bytes < self.reserved.limit {
            return Ok(());
        }
        self.make_room(bytes)
    }

    // Makes room for several entries at once, so that most appends need not allocate.
    #[cold]
    #[inline(never)]
    fn make_room(&mut self, bytes: u64) -> Result<(), NoMemory>
        ensures ok { OnOk result (bytes < self.new.reserved.limit) }
        ensures no_memory { OnErr result (self.new.reserved ≡ self.old.reserved) }
        ensures only { OnlyMoreRoom self.old self.new (D.state self.old.disk) (D.state self.new.disk) }
    {
        let longest = bytes.checked_add(SOME_BYTES).ok_or(NoMemory)?;
        let frames = longest.checked_add(6).ok_or(NoMemory)?;
        self.kept.reserve(SOME_ENTRIES as usize, longest as usize)?;
        self.disk.reserve(4 * SOME_ENTRIES, frames)?;
        self.reserved = Reserved {
            entries: SOME_ENTRIES,
            limit: longest + 1,
        };
        Ok(())
    }

    /// Appends an entry, given in two parts. `head` is copied. `body` is kept as it is, so its bytes may be shared.
    /// A snapshot takes the place of the entries that follow the snapshot before it; the file keeps these. After Ok,
    /// every crash image holds the entry. After `NoMemory` nothing has changed. After `Failed` the journal must be
    /// attached again; the entry is then in it or not.
    #[inline(always)]
    pub fn append(&mut self, head: &[u8], body: Bytes) -> Result<(), EndError>
        requires attached { self.old.attached ≡ true }
        requires short { length (head.now ++ body) ≤ max_entry }
        ensures ok { OnOk result
            (IsAppended version_1 (head.now ++ body) self.old self.new (D.state self.new.disk).history) }
        ensures err { OnErr result (self.new.entries ≡ self.old.entries) }
        ensures failed { IsErrOf result EndError.Failed →
            IsBroken version_1 self.old self.new (D.state self.new.disk).history }
        ensures no_memory { IsErrOf result EndError.NoMemory →
            NothingChanged self.old self.new (D.state self.old.disk) (D.state self.new.disk) }
        ensures ready { length (head.now ++ body) < self.old.reserved.limit → IsErrOf result EndError.NoMemory → ⊥ }

        // A crash at any moment of the call leaves the entries with or without the new one. It takes four calls.
        ensures appends { Appends version_1 self.old.entries (head.now ++ body) result (D.state self.old.disk)
            (D.state self.new.disk) }
    {
        let bytes = (head.len() + body.len()) as u64;
        // Read, so that the invariant is known of the journal before the call.
        let _attached = self.attached;
        self.reserve(bytes)?;
        let left = left_behind(self.reserved, bytes);
        self.reserved.limit = 0;
        self.attached = false;
        self.kept.stage(head, &body);
        keep_entry(&mut self.disk, &self.kept, head, &body)?;
        self.kept.add(head, body);
        self.attached = true;
        self.reserved = left;
        Ok(())
    }
}

impl<D: Fused> Journal<D> {
    ghost use Rattle.iss_disk.specs.Calls.{IsFused, IsRestarted};

    /// The next `calls` calls of the disk succeed, and all later ones fail.
    pub fn fuse(&mut self, calls: u64)
        ensures disk { IsFused calls (D.state self.old.disk) (D.state self.new.disk) }
        ensures entries { self.new.entries ≡ self.old.entries }
        ensures attached { self.new.attached ≡ self.old.attached }
        ensures reserved { self.new.reserved ≡ self.old.reserved }
    {
        self.disk.fuse(calls);
    }

    /// A crash and a restart: the disk holds what was synced, and its calls succeed again. The journal must be attached
    /// again.
    pub fn restart(&mut self)
        ensures disk { IsRestarted (D.state self.old.disk) (D.state self.new.disk) }
        ensures entries { self.new.entries ≡ self.old.entries }
        ensures attached { self.new.attached ≡ false }
    {
        self.disk.restart();
        self.reserved.limit = 0;
        self.attached = false;
    }
}
