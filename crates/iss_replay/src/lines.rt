//! Lines of a report. The only error is out of memory; a part of the line may have been written then.
ghost use Rattle.std.specs.Prelude.{◌≡◌, ◌<◌, ◌++◌, None, OnOk, Some, codes, length, reverse, take};
ghost use Rattle.iss_rules.specs.Ends.{Collision, Forged};
ghost use Rattle.iss_request.specs.Log.{requests};
ghost use Rattle.iss_schedule.specs.Words.{word_of};
ghost use Rattle.iss_replay.specs.Text.{claim_words, drop_line, end_line, node_block, node_line, request_word, request_words, slot_line, slot_lines, value_words};

use crate::words::{put_bytes, put_number, put_text, put_why};
use iss_log::Log;
use iss_request::{Epoch, NoMemory, NodeId, Request, Slot, Value};
use iss_rules::Why;
use iss_sb::Claim;
use std::alloc::Global;

/// Writes the line of a lost event.
// rule: Reports: Each lost event is reported with its cause
pub fn put_drop(out: &mut Vec<u8>, event: u64, why: Why) -> Result<(), NoMemory>
    ensures { OnOk result (out.new.items ≡ out.old.items ++ drop_line event why) }
{
    put_text(out, b"drop ")?;
    put_number(out, event)?;
    put_text(out, b" ")?;
    put_why(out, why)?;
    put_text(out, b"\n")
}

/// Writes the last line of a run that no evidence stopped.
pub fn put_ok(out: &mut Vec<u8>) -> Result<(), NoMemory>
    ensures { OnOk result (out.new.items ≡ out.old.items ++ end_line None) }
{
    put_text(out, b"end ok\n")
}

/// Writes the last line of a run that a forged claim stopped at this event.
pub fn put_forged(
    alloc: Global,
    out: &mut Vec<u8>,
    event: u64,
    claim: &Claim,
) -> Result<(), NoMemory>
    ensures { OnOk result (out.new.items ≡ out.old.items ++ end_line (Some (event, Forged claim.now))) }
{
    put_text(out, b"end forged ")?;
    put_number(out, event)?;
    put_claim(alloc, out, claim)?;
    put_text(out, b"\n")
}

// Writes a claim: its node, its statement and its signature.
fn put_claim(alloc: Global, out: &mut Vec<u8>, claim: &Claim) -> Result<(), NoMemory>
    ensures { OnOk result (out.new.items ≡ out.old.items ++ claim_words claim.now) }
{
    put_text(out, b" ")?;
    put_number(out, claim.by.0 as u64)?;
    put_word(alloc, out, claim.statement.as_slice())?;
    put_word(alloc, out, claim.sig.as_slice())
}

// Writes a space, then bytes as a word.
fn put_word(alloc: Global, out: &mut Vec<u8>, bytes: &[u8]) -> Result<(), NoMemory>
    ensures { OnOk result (out.new.items ≡ out.old.items ++ codes " " ++ word_of bytes.now) }
{
    put_text(out, b" ")?;
    put_bytes(alloc, out, bytes)
}

/// Writes the last line of a run that a collision stopped at this event. `first` was hashed earlier.
pub fn put_collision(
    alloc: Global,
    out: &mut Vec<u8>,
    event: u64,
    first: &[u8],
    second: &[u8],
) -> Result<(), NoMemory>
    ensures { OnOk result (out.new.items ≡ out.old.items ++ end_line (Some (event, Collision first.now second.now))) }
{
    put_text(out, b"end collision ")?;
    put_number(out, event)?;
    put_word(alloc, out, first)?;
    put_word(alloc, out, second)?;
    put_text(out, b"\n")
}

/// Writes a node's block: its line, then one line for each slot of its log.
// rule: Reports: A node's block has its epoch, and each slot with its first number and its requests
pub fn put_node(out: &mut Vec<u8>, node: NodeId, epoch: Epoch, log: &Log) -> Result<(), NoMemory>
    ensures { OnOk result (out.new.items ≡ out.old.items ++ node_block node.0 epoch.0 (reverse log.now.entries)) }
{
    let slots = log.entries().len() as u64;
    put_node_line(out, node, epoch, slots, log.requests())?;
    put_slots(out, log)
}

/// Writes the first line of a node's block.
pub fn put_node_line(
    out: &mut Vec<u8>,
    node: NodeId,
    epoch: Epoch,
    slots: u64,
    count: u64,
) -> Result<(), NoMemory>
    ensures { OnOk result (out.new.items ≡ out.old.items ++ node_line node.0 epoch.0 slots count) }
{
    put_text(out, b"node ")?;
    put_number(out, node.0 as u64)?;
    put_text(out, b" epoch ")?;
    put_number(out, epoch.0)?;
    put_text(out, b" slots ")?;
    put_number(out, slots)?;
    put_text(out, b" requests ")?;
    put_number(out, count)?;
    put_text(out, b"\n")
}

// Writes one line for each slot.
fn put_slots(out: &mut Vec<u8>, log: &Log) -> Result<(), NoMemory>
    ensures { OnOk result (out.new.items ≡ out.old.items ++ slot_lines (reverse log.now.entries)) }
{
    let entries = log.entries();
    for slot in 0..entries.len() {
        let first = first_number(log, slot as u64);
        put_slot(out, slot as u64, first, &entries[slot])?;
    }
    Ok(())
}

// The number of the first request of a slot: the sum of the sizes of all earlier batches.
fn first_number(log: &Log, slot: u64) -> u64
    requires { slot < length log.now.entries }
    ensures { result ≡ requests (take slot log.now.entries) }
{
    match log.first_number(Slot(slot)) {
        Some(first) => first,
        None => unreachable!(),
    }
}

/// Writes the line of a slot. `first` is the number of its first request.
pub fn put_slot(out: &mut Vec<u8>, slot: u64, first: u64, value: &Value) -> Result<(), NoMemory>
    ensures { OnOk result (out.new.items ≡ out.old.items ++ slot_line slot first value.now) }
{
    put_number(out, slot)?;
    put_value(out, first, value)?;
    put_text(out, b"\n")
}

// Writes the value of a slot.
fn put_value(out: &mut Vec<u8>, first: u64, value: &Value) -> Result<(), NoMemory>
    ensures { OnOk result (out.new.items ≡ out.old.items ++ value_words first value.now) }
{
    match value {
        Value::Nil => put_text(out, b" nil"),
        Value::Batch(batch) => put_batch(out, first, batch.as_slice()),
    }
}

// Writes the number of the first request, the size of the batch, and the identity of each request.
fn put_batch(out: &mut Vec<u8>, first: u64, batch: &[Request]) -> Result<(), NoMemory>
    ensures { OnOk result (out.new.items ≡ out.old.items ++ value_words first (Value.Batch batch.now)) }
{
    put_text(out, b" ")?;
    put_number(out, first)?;
    put_text(out, b" ")?;
    put_number(out, batch.len() as u64)?;
    put_requests(out, batch)
}

// Writes the identities of requests.
fn put_requests(out: &mut Vec<u8>, batch: &[Request]) -> Result<(), NoMemory>
    ensures { OnOk result (out.new.items ≡ out.old.items ++ request_words batch.now) }
{
    for request in batch {
        put_request(out, request)?;
    }
    Ok(())
}

// Writes the identity of a request.
fn put_request(out: &mut Vec<u8>, request: &Request) -> Result<(), NoMemory>
    ensures { OnOk result (out.new.items ≡ out.old.items ++ request_word request.now) }
{
    put_text(out, b" ")?;
    put_number(out, request.id.client as u64)?;
    put_text(out, b".")?;
    put_number(out, request.id.number as u64)
}
