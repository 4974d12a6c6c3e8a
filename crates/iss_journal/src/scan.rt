// Reading the entries of a file.
ghost use Rattle.std.specs.Prelude.{◌≡◌, ◌+◌, ◌<◌, ◌≤◌, length, take, drop, vec_len, IfOk, IfSome, IfNone};
ghost use Rattle.std.specs.Int.{w32, to_be_bytes, from_be_bytes};
ghost use Rattle.iss_journal.specs.Frames.{IsWhole};
ghost use Rattle.iss_journal.specs.Internal.Scans.{Finds};

use crate::entries::{Entries, MAX_ENTRY, OPEN, mark};
use std::alloc::{AllocError, Global};

/// What a file of more than one byte holds.
#[derive(Drop)]
pub enum Found {
    Whole(Entries),
    // The offset of the gate that is not followed by a whole entry.
    Damaged(u64),
}

// The offset of the gate after the entry whose open gate is at `gate`. None unless a length, the entry and the next
// gate follow.
// rule: Journal: Attaching reads entries up to the first closed gate, and cuts off the rest
fn next_gate(bytes: &[u8], gate: usize) -> Option<usize>
    requires { gate < length bytes.now }
    ensures whole { IfSome result (λ next. IsWhole (drop (gate + 1) bytes.now)) }
    ensures offset { IfSome result (λ next. next ≡ gate + 5 + from_be_bytes w32 (take 4 (drop (gate + 1) bytes.now))) }
    ensures spelled { IfSome result
        (λ next. to_be_bytes w32 (from_be_bytes w32 (take 4 (drop (gate + 1) bytes.now)))
        ≡ take 4 (drop (gate + 1) bytes.now)) }
    ensures within { IfSome result (λ next. next < length bytes.now) }
    ensures none { IfNone result (IsWhole (drop (gate + 1) bytes.now) → ⊥) }
{
    let [a, b, c, d, body @ ..] = &bytes[gate + 1..] else {
        return None;
    };
    let size = u32::from_be_bytes([*a, *b, *c, *d]) as usize;
    if size > MAX_ENTRY || body.len() <= size {
        return None;
    }
    Some(gate + 5 + size)
}

/// Reads the entries up to the first closed gate.
pub(crate) fn read_entries(alloc: Global, bytes: Vec<u8>) -> Result<Found, AllocError>
    requires { 1 < vec_len bytes }
    ensures { IfOk result (Finds bytes.items) }
{
    let mut marks = Vec::new(alloc);
    let mut count = 0;
    let mut at = 0;
    while bytes[at] == OPEN {
        match next_gate(&bytes, at) {
            Some(next) => {
                marks.reserve(1)?;
                mark(&mut marks, count, at);
                count += 1;
                at = next;
            }
            None => return Ok(Found::Damaged(at as u64)),
        }
    }
    Ok(Found::Whole(Entries::from_parts(bytes, count, marks, at)))
}
