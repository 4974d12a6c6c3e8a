//! A reader of journal files that knows nothing of the journal.
use std::alloc::AllocError;

/// Appends a record: a number, and bytes with their length.
pub(crate) fn put_record(out: &mut Vec<u8>, number: u64, bytes: &[u8]) -> Result<(), AllocError> {
    out.extend_from_slice(&number.to_be_bytes())?;
    out.extend_from_slice(&(bytes.len() as u64).to_be_bytes())?;
    out.extend_from_slice(bytes)
}

// The entry whose open gate is at `gate`, if it stands whole with another gate behind it.
fn entry_at(bytes: &[u8], gate: usize) -> Option<&[u8]> {
    let [1, a, b, c, d, rest @ ..] = bytes.get(gate..)? else {
        return None;
    };
    let len = u32::from_be_bytes([*a, *b, *c, *d]) as usize;
    if rest.len() <= len {
        return None;
    }
    rest.get(..len)
}

// Appends a record of each snapshot, and of each entry behind the last of them. The result is the gate behind the last
// whole entry.
fn put_entries(out: &mut Vec<u8>, bytes: &[u8]) -> Result<usize, AllocError> {
    let mut snapshots = out.len();
    let mut gate = 0usize;
    for _ in 0..bytes.len() {
        let Some(entry) = entry_at(bytes, gate) else {
            break;
        };
        let is_snapshot = matches!(entry, [5, ..]);
        if is_snapshot {
            out.truncate(snapshots);
        }
        put_record(out, gate as u64, entry)?;
        if is_snapshot {
            snapshots = out.len();
        }
        gate = gate.saturating_add(5).saturating_add(entry.len());
    }
    Ok(gate)
}

/// Appends what a journal over these bytes should show, with a record of what is left of them: all if they are damaged,
/// else nothing behind the last gate. The result is how many bytes are left.
pub(crate) fn put_read(out: &mut Vec<u8>, bytes: &[u8]) -> Result<usize, AllocError> {
    if bytes.len() <= 1 {
        put_record(out, u64::MAX, &[0])?;
        return Ok(1);
    }
    let gate = put_entries(out, bytes)?;
    if bytes.get(gate) == Some(&1) {
        out.clear();
        put_record(out, gate as u64, b"damage")?;
        put_record(out, u64::MAX, bytes)?;
        return Ok(bytes.len());
    }
    let left = bytes.get(..gate.saturating_add(1)).unwrap_or(bytes);
    put_record(out, u64::MAX, left)?;
    Ok(left.len())
}
