// The trait of disks.
ghost use Rattle.std.specs.Prelude.{◌≡◌, ℕ, ◌≤◌, List, ◌∷◌, length, OnOk, IfOk};
ghost use Rattle.iss_disk.specs.File.{File, Image, wrote, shortened, synced};
ghost use Rattle.iss_disk.specs.Calls.{Allows, Attaches, Changes, Device, IfTold, IsFused, IsReadAt, IsRestarted, MayChange, OnlyMakesRoom, OnlyReads};

use crate::{EndError, Failed, NoMemory};

/// Files by name, one of which is the current one. A name that was never used names an empty file.
///
/// Every call but `reserve` is one call of the device, which may fail. A crash may tear what has not been synced, as
/// the definition `Image` says. The laws speak of the recorded states of files; a disk over real files records none.
pub trait Disk {
    /// Its files so far, what is known about later calls, and the room that `reserve` made.
    ghost state: { Self → Device };

    /// Makes the file of this name the current one; a new file is empty. `NoMemory` is returned before the device is
    /// called; `Failed` says that the device failed. After an error the current file is the same.
    fn attach(&mut self, name: &str) -> Result<(), EndError>
        ensures { Attaches name.now result (state self.old) (state self.new) };

    /// Makes room for the next `calls` calls of `write_at`, `cut` and `sync`, which then allocate nothing, and which
    /// write at most `bytes` bytes in total. The device is not called.
    fn reserve(&mut self, calls: u64, bytes: u64) -> Result<(), NoMemory>
        ensures room { OnOk result (Allows calls bytes (state self.new).room) }
        ensures only { OnlyMakesRoom (state self.old) (state self.new) };

    /// The current file's length in bytes.
    fn length(&mut self) -> Result<u64, Failed>
        ensures length { IfOk result (λ n. IfTold (state self.old).history (λ file. n ≡ length file.content)) }
        ensures only { OnlyReads result (state self.old) (state self.new) };

    /// Reads from offset `at`, and returns how many bytes it read. A disk with recorded states fills the slice as far
    /// as the file reaches; at or past the end it reads 0 bytes.
    fn read_at(&mut self, at: u64, into: &mut [u8]) -> Result<usize, Failed>
        ensures read { IfOk result (IsReadAt at (state self.old).history into.old into.new) }
        ensures only { OnlyReads result (state self.old) (state self.new) };

    /// Writes `bytes` at offset `at`, which is at most the length: over existing bytes, and past the end.
    fn write_at(&mut self, at: u64, bytes: &[u8]) -> Result<(), Failed>
        requires { MayChange at (length bytes.now) (state self.old) }
        ensures { Changes (wrote at bytes.now) (length bytes.now) result (state self.old) (state self.new) };

    /// Cuts the file to `len` bytes, which is at most its length.
    fn cut(&mut self, len: u64) -> Result<(), Failed>
        requires { MayChange len 0 (state self.old) }
        ensures { Changes (shortened len) 0 result (state self.old) (state self.new) };

    /// Makes the file durable: once it is Ok, a crash leaves exactly what a read returns.
    fn sync(&mut self) -> Result<(), Failed>
        requires { 1 ≤ (state self.old).room.calls }
        ensures { Changes synced 0 result (state self.old) (state self.new) };

    /// The states of the current file are those of the file with its name.
    ghost here: { (disk : Self) → (state disk).history ≡ (state disk).files (state disk).current.name };

    /// What a read returns is one of the crash images.
    ghost read_is_image: { (disk : Self) (name : List ℕ) (file : File) (past : List File) →
        (state disk).files name ≡ file ∷ past → Image file file.content };
}

/// A disk whose device can be made to fail, as in a crash.
pub trait Fused: Disk {
    /// The next `calls` calls of the device succeed, and all later ones fail.
    fn fuse(&mut self, calls: u64)
        ensures { IsFused calls (Self.state self.old) (Self.state self.new) };

    /// A crash and a restart: each file is what was synced of it, and calls succeed again.
    fn restart(&mut self)
        ensures { IsRestarted (Self.state self.old) (Self.state self.new) };
}
