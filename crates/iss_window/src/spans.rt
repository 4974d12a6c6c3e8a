//! One client's span: its low watermark, and a bit for each of the 64 numbers from there on.
ghost use Rattle.std.specs.Prelude.{◌≡◌, ◌+◌, ◌<◌, ◌≤◌, ◌^◌, ◌||◌, ◌==◌, ℕ, true, false, if◌then◌else◌, IsTrue};
ghost use Rattle.iss_request.specs.Log.{has_id, same_id};
ghost use Rattle.iss_request.specs.declared.ids.ReqId.{ReqId};
ghost use Rattle.iss_window.specs.Kept.{AreNumbers, IsMoved, IsSpan, is_set};
ghost use Rattle.iss_window.specs.Window.{id_of};

use iss_request::ReqId;
use std::collections::BTreeSet;

/// How many numbers have a bit.
pub(crate) const BITS: u64 = 64;

/// A client's low watermark. Bit k says whether number `low + k` was noted.
#[derive(Clone, Copy)]
pub(crate) struct Span {
    pub low: u64,
    pub bits: u64,
}

// Whether the bit at this place is set.
pub(crate) fn has_bit(bits: u64, place: u64) -> bool
    requires { place < 64 }
    ensures { result ≡ is_set bits place }
{
    (bits >> place) & 1 == 1
}

// The bits with that at this place.
pub(crate) fn with_bit(bits: u64, place: u64) -> u64
    requires { place < 64 }
    ensures { (i : ℕ) → is_set result i ≡ ((i == place) || is_set bits i) }
{
    bits | 1u64 << place
}

// Moves the span past the noted numbers that it begins with.
// rule: Windows: A client's window begins at its least number that was not ordered before the epoch
pub(crate) fn raise(strays: &mut BTreeSet<ReqId>, client: u8, span: Span) -> Span
    requires fits { IsSpan client span.low span.bits strays.old.keys }
    ensures moved { IsMoved client span result strays.old.keys strays.new.keys }
    ensures first { is_set result.bits 0 ≡ false }
{
    let mut span = span;
    'run: while has_bit(span.bits, 0) {
        span = step(strays, client, span);
    }
    span
}

// Moves the span past its first number, which was noted.
// rule: Windows: A stray that comes into its client's 64 numbers becomes a bit
fn step(strays: &mut BTreeSet<ReqId>, client: u8, span: Span) -> Span
    requires first { is_set span.bits 0 ≡ true }
    requires fits { IsSpan client span.low span.bits strays.old.keys }
    ensures moved { IsMoved client span result strays.old.keys strays.new.keys }
    ensures up { result.low ≡ span.low + 1 }
{
    let stray = take(strays, client, span.low + BITS);
    let bits = span.bits >> 1;
    Span {
        low: span.low + 1,
        bits: if stray {
            with_bit(bits, BITS - 1)
        } else {
            bits
        },
    }
}

// Removes one number of a client from the strays, if it is there.
fn take(strays: &mut BTreeSet<ReqId>, client: u8, number: u64) -> bool
    requires numbers { AreNumbers client strays.old.keys }
    ensures there { result ≡ has_id (id_of client number) strays.old.keys }
    ensures left { (id : ReqId) → has_id id strays.new.keys
        ≡ (if same_id (id_of client number) id then false else has_id id strays.old.keys) }
{
    if number > u32::MAX as u64 {
        return false;
    }
    strays.remove(&ReqId {
        client,
        number: number as u32,
    })
}
