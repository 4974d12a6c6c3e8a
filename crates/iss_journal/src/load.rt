// Reading a journal's file, and cutting off and syncing its end.
ghost use Rattle.std.specs.Prelude.{◌≡◌, ℕ, IfOk, IsErrOf};
ghost use Rattle.iss_disk.specs.Calls.{IfTold};
ghost use Rattle.iss_journal.specs.Frames.{version_1};
ghost use Rattle.iss_journal.specs.Internal.Settling.{IsLeftDamaged, IsLoaded, MayLoad, OnlyLoads, OnlyLooks};

use crate::AttachError;
use crate::entries::Entries;
use crate::scan::{Found, read_entries};
use crate::settle::{cut_tail, make_empty};
use iss_disk::{Disk, EndError};
use std::alloc::Global;

/// Reads the whole current file.
// rule: Journal: A file without a reading is damaged, at the offset of its gate
fn read_file<D: Disk>(alloc: Global, disk: &mut D) -> Result<Vec<u8>, EndError>
    ensures content { IfOk result (λ bytes. IfTold (D.state disk.old).history (λ file. bytes.items ≡ file.content)) }
    ensures only { OnlyLooks (IsErrOf result EndError.Failed) (D.state disk.old) (D.state disk.new) }
{
    let size = disk.length()?;
    let mut bytes = vec![in alloc; 0u8; size as usize]?;
    let mut at = 0;
    while at < bytes.len() {
        let count = disk.read_at(at as u64, &mut bytes[at..])?;
        if count == 0 {
            break;
        }
        at += count;
    }
    bytes.truncate(at);
    Ok(bytes)
}

/// Reads the entries of the current file, which is all synced, and cuts off what follows the last gate.
// rule: Journal: A damaged file stays byte for byte
pub(crate) fn load<D: Disk>(alloc: Global, disk: &mut D) -> Result<Entries, AttachError>
    requires { MayLoad (D.state disk.old) }
    ensures loaded { IfOk result (IsLoaded version_1 (D.state disk.old).history (D.state disk.new).history) }
    ensures damaged { (at : ℕ) → IsErrOf result (AttachError.Damaged at) →
        IsLeftDamaged version_1 at (D.state disk.old).history (D.state disk.new).history }
    ensures only { OnlyLoads version_1 (IsErrOf result AttachError.Failed) (D.state disk.old) (D.state disk.new) }
{
    let bytes = read_file(alloc, disk)?;
    if bytes.len() <= 1 {
        make_empty(disk, &bytes)?;
        return Ok(Entries::new(alloc));
    }
    match read_entries(alloc, bytes)? {
        Found::Whole(entries) => {
            cut_tail(disk, &entries)?;
            Ok(entries)
        }
        Found::Damaged(at) => Err(AttachError::Damaged { at }),
    }
}
