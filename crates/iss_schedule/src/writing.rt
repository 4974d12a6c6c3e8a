//! Writing a schedule's text.
ghost use Rattle.std.specs.Prelude.{◌≡◌, ◌∷◌, ◌++◌, [], IfOk, OnOk, codes, decimal, drop, get_or, take};
ghost use Rattle.iss_request.specs.declared.setups.Setup.{Setup};
ghost use Rattle.iss_schedule.specs.Events.{spell_event};
ghost use Rattle.iss_schedule.specs.Headers.{faulty_line, field, node_words, place_of_policy, policy_lines};
ghost use Rattle.iss_schedule.specs.Names.{text_of_name};
ghost use Rattle.iss_schedule.specs.Schedules.{header_lines, text_of};
ghost use Rattle.iss_schedule.specs.Words.{ended, line_of, word_of};

use crate::modules;
use crate::names::{self, Name};
use crate::schedules::{Event, Schedule};
use iss_request::bytes::Bytes;
use iss_request::errors::NoMemory;
use iss_request::ids::NodeId;
use iss_request::setups::{Policy, Setup};
use itoa::Buffer;
use std::alloc::Global;

/// Appends a text. The only error is out of memory; a part may have been appended then. So it is with all of these.
pub fn put(out: &mut Vec<u8>, text: &[u8]) -> Result<(), NoMemory>
    ensures { OnOk result (out.new.items ≡ out.old.items ++ text.now) }
{
    out.extend_from_slice(text)?;
    Ok(())
}

/// Appends a number in decimal.
pub fn put_decimal(out: &mut Vec<u8>, number: u64) -> Result<(), NoMemory>
    ensures { OnOk result (out.new.items ≡ out.old.items ++ decimal number) }
{
    let mut buffer = Buffer::new();
    put(out, buffer.format(number).as_bytes())
}

/// Appends a space and a number.
pub fn put_number(out: &mut Vec<u8>, number: u64) -> Result<(), NoMemory>
    ensures { OnOk result (out.new.items ≡ out.old.items ++ 32 ∷ decimal number) }
{
    put(out, b" ")?;
    put_decimal(out, number)
}

/// Appends a space and the word of some bytes.
pub fn put_bytes(alloc: Global, out: &mut Vec<u8>, bytes: &[u8]) -> Result<(), NoMemory>
    ensures { OnOk result (out.new.items ≡ out.old.items ++ 32 ∷ word_of bytes.now) }
{
    put(out, b" ")?;
    if bytes.is_empty() {
        return put(out, b"-");
    }
    let word = hex::encode(alloc, bytes)?;
    put(out, word.as_bytes())
}

// Appends a line.
fn put_line(out: &mut Vec<u8>, line: &[u8]) -> Result<(), NoMemory>
    ensures { OnOk result (out.new.items ≡ out.old.items ++ line.now ++ 10 ∷ []) }
{
    put(out, line)?;
    put(out, b"\n")
}

// Appends a line of a header with a name and a number.
fn put_field(out: &mut Vec<u8>, name: &[u8], number: u64) -> Result<(), NoMemory>
    ensures { OnOk result (out.new.items ≡ out.old.items ++ field name.now number ++ 10 ∷ []) }
{
    put(out, name)?;
    put_number(out, number)?;
    put(out, b"\n")
}

// The line that names a policy.
fn policy_line(policy: Policy) -> &'static [u8]
    ensures { result.now ≡ get_or policy_lines (place_of_policy policy) [] }
{
    match policy {
        Policy::Simple => b"policy simple",
        Policy::Backoff => b"policy backoff",
        Policy::Blacklist => b"policy blacklist",
    }
}

// Appends the first lines of a header.
fn put_front(out: &mut Vec<u8>, setup: &Setup) -> Result<(), NoMemory>
    ensures { OnOk result (out.new.items ≡ out.old.items ++ ended (take 5 (header_lines setup.now))) }
{
    put_line(out, b"iss 1")?;
    put_line(out, modules::line_of(setup.module))?;
    put_field(out, b"f", u64::from(setup.f))?;
    put_field(out, b"epoch", setup.epoch)?;
    put_field(out, b"buckets", u64::from(setup.buckets))
}

// Appends the next lines of a header.
fn put_middle(out: &mut Vec<u8>, setup: &Setup) -> Result<(), NoMemory>
    ensures { OnOk result (out.new.items ≡ out.old.items ++ ended (take 5 (drop 5 (header_lines setup.now)))) }
{
    put_field(out, b"batch", u64::from(setup.batch))?;
    put_field(out, b"window", u64::from(setup.window))?;
    put_line(out, policy_line(setup.policy))?;
    put_field(out, b"clients", u64::from(setup.clients))?;
    put_field(out, b"keys", u64::from(setup.keys))
}

// Appends the line that names at least one faulty node.
fn put_nodes(out: &mut Vec<u8>, nodes: &[NodeId]) -> Result<(), NoMemory>
    ensures { OnOk result (out.new.items ≡ out.old.items ++ line_of (codes "faulty" ∷ node_words nodes.now)) }
{
    put(out, b"faulty")?;
    for node in nodes {
        put_number(out, u64::from(node.0))?;
    }
    Ok(())
}

// Appends the line of the faulty nodes.
fn put_faulty(out: &mut Vec<u8>, nodes: &[NodeId]) -> Result<(), NoMemory>
    ensures { OnOk result (out.new.items ≡ out.old.items ++ faulty_line nodes.now ++ 10 ∷ []) }
{
    if nodes.is_empty() {
        return put_line(out, b"faulty none");
    }
    put_nodes(out, nodes)?;
    put(out, b"\n")
}

/// Appends the lines of a header.
pub fn put_header(out: &mut Vec<u8>, setup: &Setup) -> Result<(), NoMemory>
    ensures { OnOk result (out.new.items ≡ out.old.items ++ ended (header_lines setup.now)) }
{
    put_front(out, setup)?;
    put_middle(out, setup)?;
    put_faulty(out, setup.faulty.as_slice())
}

// Appends a name and a number.
fn put_one(out: &mut Vec<u8>, name: Name, number: u64) -> Result<(), NoMemory>
    ensures { OnOk result (out.new.items ≡ out.old.items ++ text_of_name name ++ 32 ∷ decimal number) }
{
    put(out, names::text_of(name))?;
    put_number(out, number)
}

fn put_two(out: &mut Vec<u8>, name: Name, first: u64, second: u64) -> Result<(), NoMemory>
    ensures { OnOk result (out.new.items ≡ out.old.items ++ text_of_name name ++ 32 ∷ decimal first
        ++ 32 ∷ decimal second) }
{
    put_one(out, name, first)?;
    put_number(out, second)
}

// Appends an event.
fn put_event(alloc: Global, out: &mut Vec<u8>, event: &Event) -> Result<(), NoMemory>
    ensures { OnOk result (out.new.items ≡ out.old.items ++ spell_event event.now) }
{
    match event {
        Event::Request {
            core,
            client,
            number,
            payload,
        } => {
            put_two(out, Name::Request, u64::from(*core), u64::from(*client))?;
            put_number(out, u64::from(*number))?;
            put_bytes(alloc, out, payload.as_slice())
        }
        Event::Propose { core } => put_one(out, Name::Propose, u64::from(*core)),
        Event::Timeout { core, leader } => {
            put_two(out, Name::Timeout, u64::from(*core), u64::from(leader.0))
        }
        Event::Ask { core, peer } => {
            put_two(out, Name::Ask, u64::from(*core), u64::from(peer.0))
        }
        Event::Deliver { packet } => put_one(out, Name::Deliver, *packet),
        Event::Lose { packet } => put_one(out, Name::Lose, *packet),
        Event::Pump => put(out, names::text_of(Name::Pump)),
        Event::Calm { pumps } => put_one(out, Name::Calm, u64::from(*pumps)),
        Event::Hold { core } => put_one(out, Name::Hold, u64::from(*core)),
        Event::Free { core } => put_one(out, Name::Free, u64::from(*core)),
        Event::Drop { core } => put_one(out, Name::Drop, u64::from(*core)),
        Event::Restart { core } => put_one(out, Name::Restart, u64::from(*core)),
        Event::Crash { core, calls } => {
            put_two(out, Name::Crash, u64::from(*core), u64::from(*calls))
        }
        Event::Bytes { core, bytes } => {
            put_one(out, Name::Bytes, u64::from(*core))?;
            put_bytes(alloc, out, bytes.as_slice())
        }
    }
}

/// The text of a schedule. A module that schedules cannot name is written as an empty line.
pub fn write(alloc: Global, schedule: &Schedule) -> Result<Bytes, NoMemory>
    ensures { IfOk result (λ bytes. bytes ≡ text_of schedule.now) }
{
    let mut out = Vec::new(alloc);
    put_header(&mut out, &schedule.setup)?;
    for event in schedule.events.as_slice() {
        put_event(alloc, &mut out, event)?;
        put(&mut out, b"\n")?;
    }
    Ok(Bytes::of(out))
}
