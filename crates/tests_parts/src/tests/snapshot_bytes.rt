//! Snapshots in bytes: one of an epoch of empty batches, whose bytes are another program's, with each cut of it; one
//! with early packets; what has no encoding.
use iss_request::{Bytes, DecodeError, Epoch, Value};
use iss_snapshot::{Snapshot, decode_snapshot, encode_snapshot};
use std::alloc::Global;
use std::process::Abort;
use std::test::Fail;

// A snapshot of an epoch with three empty batches, after which one leaf is used.
const BYTES: &[u8] =
    b"\x05\0\0\0\0\0\0\0\0\0\0\0\0\0\0\0\x01\x01\0\x01\0\x01\0\0\0\0\x01\0\0\0\0\0\0\0\0\0\0\0\0\0\0";

// The same with two early packets: 01 02 03, and one without a byte.
const EARLY: &[u8] =
    b"\x05\0\0\0\0\0\0\0\0\0\0\0\0\0\0\0\x01\x01\0\x01\0\x01\0\0\0\0\x01\0\0\0\0\0\0\0\0\0\0\0\0\0\x02\
      \0\0\0\x03\x01\x02\x03\0\0\0\0";

fn is_empty_batch(value: &Value) -> bool {
    matches!(value, Value::Batch(batch) if batch.len() == 0)
}

// Whether the snapshot is of that epoch and that leaf.
fn is_expected(snapshot: &Snapshot) -> bool {
    let [values] = snapshot.epochs.as_slice() else {
        return false;
    };
    snapshot.to == Epoch(1)
        && snapshot.leaf == 1
        && values.len() == 3
        && values.as_slice().iter().all(is_empty_batch)
}

fn has_early(snapshot: &Snapshot) -> bool {
    let [one, other] = snapshot.early.as_slice() else {
        return false;
    };
    one.as_slice() == [1, 2, 3].as_slice() && other.len() == 0
}

// The bytes of the snapshot of these bytes from this epoch on, and whether it is as expected, and has the packets.
fn written_again(
    alloc: Global,
    bytes: &[u8],
    from: u64,
) -> Result<(Bytes, bool, bool), DecodeError> {
    let mut snapshot = decode_snapshot(alloc, 1, 3, bytes)?;
    snapshot.from = Epoch(from);
    let again = encode_snapshot(alloc, 1, &snapshot)?;
    Ok((again, is_expected(&snapshot), has_early(&snapshot)))
}

fn is_refused(alloc: Global, bytes: &[u8]) -> bool {
    matches!(
        decode_snapshot(alloc, 1, 3, bytes),
        Err(DecodeError::BadField { .. })
    )
}

// Checks that the snapshot of these bytes is as expected, has the packets or not, and is encoded as them.
fn check_bytes(rt: &impl Abort, alloc: Global, bytes: &[u8], packets: bool) -> Result<(), Fail> {
    let (again, expected, early) = written_again(alloc, bytes, 0)?;
    assert!(rt; again.as_slice() == bytes && expected && early == packets);
    Ok(())
}

fn check_cuts(rt: &impl Abort, alloc: Global, bytes: &[u8]) {
    for cut in 0..bytes.len() {
        assert!(rt; is_refused(alloc, &bytes[..cut]), "{cut}");
    }
}

#[test]
fn an_epoch_of_empty_batches_has_these_bytes(rt: HostRuntime) -> Result<(), Fail> {
    check_cuts(&rt, rt.alloc(), BYTES);
    check_bytes(&rt, rt.alloc(), BYTES, false)
}

#[test]
fn a_snapshot_decodes_again(rt: HostRuntime) -> Result<(), Fail> {
    check_bytes(&rt, rt.alloc(), EARLY, true)
}

#[test]
fn a_snapshot_of_no_epoch_has_no_encoding(rt: HostRuntime) -> Result<(), Fail> {
    let (bytes, ..) = written_again(rt.alloc(), BYTES, 1)?;
    assert!(rt; is_refused(rt.alloc(), bytes.as_slice()));
    Ok(())
}
