// Appending an entry durably, by four calls of the device.
ghost use Rattle.std.specs.Prelude.{◌++◌};
ghost use Rattle.iss_journal.specs.Frames.{version_1};
ghost use Rattle.iss_journal.specs.Internal.Additions.{Keeps, MayKeep};

use crate::entries::OPEN;
use crate::retained::Retained;
use iss_disk::{Disk, Failed};
use iss_request::Bytes;

/// Writes a staged entry, given in two parts, after the last gate. The gate stays closed until the entry is synced, and
/// is opened only then.
// rule: Journal: An append writes its entry, syncs, opens the gate, and syncs
#[inline(always)]
pub(crate) fn keep_entry<D: Disk>(
    disk: &mut D,
    kept: &Retained,
    head: &[u8],
    body: &Bytes,
) -> Result<(), Failed>
    requires { MayKeep (head.now ++ body.now) kept.now (D.state disk.old) }
    ensures { Keeps version_1 (head.now ++ body.now) kept.now result (D.state disk.old) (D.state disk.new) }
{
    let gate = kept.end();
    let staged = kept.staged();
    disk.write_at(gate as u64 + 1, staged)?;
    disk.sync()?;
    disk.write_at(gate as u64, &[OPEN])?;
    disk.sync()?;
    Ok(())
}
