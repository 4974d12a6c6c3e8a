//! What is printed of a certified log.
ghost use Rattle.std.specs.Prelude.{◌≡◌, ◌+◌, ◌++◌, ℕ, IfOk, List, OnOk, decimal, reverse};
ghost use Rattle.iss_audit.specs.Exports.{log_of};
ghost use Rattle.iss_export.specs.Certified.{HasPrinted, certified_line, certified_text, place_behind};
ghost use Rattle.iss_replay.specs.Text.{slot_lines};
ghost use Rattle.iss_request.specs.Log.{size_of};
ghost use Rattle.iss_request.specs.declared.requests.Value.{Value as ModelValue};

use iss_audit::{CertifiedEpoch, Export};
use iss_replay::lines::put_slot;
use iss_replay::words::{put_number, put_text};
use iss_request::{Bytes, NoMemory, Value};
use std::alloc::Global;

/// A place in a log: a slot, and the number of its first request.
#[derive(Clone, Copy, Debug, PartialEq, Eq)]
pub struct Place {
    pub slot: u64,
    pub first: u64,
}

/// What is printed of a certified log: a line for each slot, as in a report, and how long the log is. The only error is
/// out of memory, also if the requests pass 2^64 - 1.
// rule: Audit: A certified log is printed slot by slot, with the number of its epochs, slots and requests
pub fn certified(alloc: Global, export: &Export) -> Result<Bytes, NoMemory>
    ensures { IfOk result (λ bytes. bytes ≡ certified_text export.now.epochs) }
{
    let epochs = export.epochs.as_slice();
    let mut out = Vec::new(alloc);
    let end = put_epochs(&mut out, epochs)?;
    put_size(&mut out, epochs.len() as u64, end)?;
    Ok(Bytes::of(out))
}

// Writes a line for each slot of these epochs, and returns the place after the last.
fn put_epochs(out: &mut Vec<u8>, epochs: &[CertifiedEpoch]) -> Result<Place, NoMemory>
    ensures { IfOk result (HasPrinted (log_of epochs.now) out.old.items out.new.items) }
{
    let mut place = Place { slot: 0, first: 0 };
    for epoch in epochs {
        place = put_values(out, place, epoch.values.as_slice())?;
    }
    Ok(place)
}

// Writes a line for each of these values, from this place on, and returns the place after the last.
fn put_values(out: &mut Vec<u8>, start: Place, values: &[Value]) -> Result<Place, NoMemory>
    ensures { IfOk result (λ end. (log : List ModelValue) (text : List ℕ) → start ≡ place_behind log →
        out.old.items ≡ text ++ slot_lines (reverse log) →
        HasPrinted (log ++ values.now) text out.new.items end) }
{
    let mut place = start;
    for value in values {
        put_slot(out, place.slot, place.first, value)?;
        place = behind(place, value)?;
    }
    Ok(place)
}

// The place after this value's.
fn behind(place: Place, value: &Value) -> Result<Place, NoMemory>
    ensures { IfOk result (λ next. next ≡ record {
      slot = place.slot + 1;
      first = place.first + size_of value.now;
    }) }
{
    let Some(slot) = place.slot.checked_add(1) else {
        return Err(NoMemory);
    };
    let Some(first) = place.first.checked_add(size(value)) else {
        return Err(NoMemory);
    };
    Ok(Place { slot, first })
}

// The number of requests in a value.
fn size(value: &Value) -> u64
    ensures { result ≡ size_of value.now }
{
    match value {
        Value::Nil => 0,
        Value::Batch(batch) => batch.len() as u64,
    }
}

// Writes how long the log is.
fn put_size(out: &mut Vec<u8>, epochs: u64, end: Place) -> Result<(), NoMemory>
    ensures { OnOk result (out.new.items ≡ out.old.items ++ certified_line epochs end.slot end.first) }
{
    put_count(out, b"certified epochs ", epochs)?;
    put_count(out, b" slots ", end.slot)?;
    put_count(out, b" requests ", end.first)?;
    put_text(out, b"\n")
}

// Writes a number behind its name.
fn put_count(out: &mut Vec<u8>, name: &[u8], count: u64) -> Result<(), NoMemory>
    ensures { OnOk result (out.new.items ≡ out.old.items ++ name.now ++ decimal count) }
{
    put_text(out, name)?;
    put_number(out, count)
}
