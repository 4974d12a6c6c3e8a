// Making a file that was read consist of its entries and a closed gate, all synced.
ghost use Rattle.std.specs.Prelude.{◌+◌, [], ◌∷◌, length, take, OnOk};
ghost use Rattle.iss_journal.specs.Frames.{frames, version_1};
ghost use Rattle.iss_journal.specs.EntryViews.{entries_in};
ghost use Rattle.iss_journal.specs.Internal.Settling.{MayCut, MayEmpty, RestsAs, Settles};

use crate::entries::{CLOSED, Entries};
use iss_disk::{Disk, Failed};

/// Cuts off what follows the last gate of a file that was read and is all synced.
pub(crate) fn cut_tail<D: Disk>(disk: &mut D, entries: &Entries) -> Result<(), Failed>
    requires { MayCut entries.now (D.state disk.old) }
    ensures settles { Settles version_1 (entries_in entries.now) result (D.state disk.old) (D.state disk.new) }
    ensures done { OnOk result (RestsAs (entries_in entries.now)
        (take (length (frames (entries_in entries.now)) + 1) entries.now.bytes.items) (D.state disk.new).history) }
{
    if entries.has_tail() {
        disk.cut(entries.last() as u64 + 1)?;
        disk.sync()?;
    }
    Ok(())
}

/// Makes an empty journal of a file of at most one byte, which is all synced.
pub(crate) fn make_empty<D: Disk>(disk: &mut D, bytes: &[u8]) -> Result<(), Failed>
    requires { MayEmpty bytes.now (D.state disk.old) }
    ensures settles { Settles version_1 [] result (D.state disk.old) (D.state disk.new) }
    ensures done { OnOk result (RestsAs [] (0 ∷ []) (D.state disk.new).history) }
{
    let _ = bytes;
    disk.cut(0)?;
    disk.write_at(0, &[CLOSED])?;
    disk.sync()?;
    Ok(())
}
