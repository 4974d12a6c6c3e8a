// The trace of a loop.
ghost use Rattle.std.specs.Prelude.{◌≡◌, ◌≤◌, ◌+◌, ◌^◌, ◌++◌, ◌∷◌, [], true, decimal, length, IfOk, OnOk, OnErr};
ghost use Rattle.iss_loops.specs.Traces.{is_within_limits};
ghost use Rattle.iss_schedule.specs.Events.{spell_event};
ghost use Rattle.iss_schedule.specs.Words.{word_of};

use iss_request::{NoMemory, Seq, Setup};
use iss_schedule::{Event, Schedule, put_header};
use itoa::Buffer;
use std::alloc::Global;
use std::marker::Model;

// The limits of a trace.
const MOST_EVENTS: usize = 1_000_000;

const MOST_BYTES: u128 = 16_000_000;

/// The trace of a loop: a schedule that grows event by event. It knows the length of its text.
#[derive(Drop)]
pub struct Trace {
    schedule: Schedule,
    bytes: u64,
}

impl Model for Trace {
    ghost use Rattle.std.specs.Prelude.{◌≡◌};
    ghost use Rattle.iss_loops.specs.Traces.{text_length};
    ghost use Rattle.iss_schedule.specs.declared.schedules.Schedule.{Schedule};

    ghost Value = { Schedule };

    ghost view = { λ t. t.schedule };

    ghost invariant = { λ t. t.bytes ≡ text_length t.schedule.setup t.schedule.events };
}

impl Trace {
    /// The trace of no events. The only error is out of memory.
    pub fn new(alloc: Global, setup: Setup) -> Result<Trace, NoMemory>
        ensures { IfOk result (λ t. t ≡ record { setup = setup; events = [] }) }
    {
        let mut header = Vec::new(alloc);
        put_header(&mut header, &setup)?;
        Ok(Trace {
            schedule: Schedule {
                setup,
                events: Seq::new(alloc),
            },
            bytes: header.len() as u64,
        })
    }

    /// The schedule so far.
    pub fn schedule(&self) -> &Schedule
        ensures { result.now ≡ self.now }
    {
        &self.schedule
    }

    /// The schedule.
    pub fn into_schedule(self) -> Schedule
        ensures { result ≡ self }
    {
        self.schedule
    }

    /// Whether the trace stays within its limits with this event.
    // rule: Loopback: A trace has at most 1,000,000 events and 16,000,000 bytes
    pub fn fits(&self, event: &Event) -> bool
        ensures { result ≡ is_within_limits self.now.setup (self.now.events ++ event.now ∷ []) }
    {
        let bytes = self.bytes as u128 + line_length(event) + 1;
        self.schedule.events.len() < MOST_EVENTS && bytes <= MOST_BYTES
    }

    /// Appends an event. On out of memory nothing changes.
    pub fn push(&mut self, event: Event) -> Result<(), NoMemory>
        requires { is_within_limits self.old.setup (self.old.events ++ event ∷ []) ≡ true }
        ensures pushed { OnOk result (self.new ≡ record self.old { events = self.old.events ++ event ∷ [] }) }
        ensures same { OnErr result (self.new ≡ self.old) }
    {
        let line = line_length(&event);
        self.schedule.events.push(event)?;
        self.bytes += line as u64 + 1;
        Ok(())
    }
}

// The length of a number in decimal.
fn digits(number: u64) -> u128
    ensures same { result ≡ length (decimal number) }
    ensures few { result ≤ 40 }
{
    let mut buffer = Buffer::new();
    buffer.format(number).len() as u128
}

// The length of bytes as a word.
fn word_length(bytes: &[u8]) -> u128
    ensures same { result ≡ length (word_of bytes.now) }
    ensures few { result ≤ 2 ^ 65 }
{
    if bytes.is_empty() {
        return 1;
    }
    2 * bytes.len() as u128
}

// The length of a name, a space and a number.
fn one(name: &[u8], number: u64) -> u128
    ensures same { result ≡ length name.now + 1 + length (decimal number) }
    ensures few { result ≤ 2 ^ 64 + 41 }
{
    name.len() as u128 + 1 + digits(number)
}

// The length of a name, and of two numbers that follow it.
fn two(name: &[u8], first: u64, second: u64) -> u128
    ensures same { result ≡ length name.now + 1 + length (decimal first) + 1 + length (decimal second) }
    ensures few { result ≤ 2 ^ 64 + 82 }
{
    one(name, first) + 1 + digits(second)
}

// The length of an event's line, without its line feed.
fn line_length(event: &Event) -> u128
    ensures same { result ≡ length (spell_event event.now) }
    ensures few { result ≤ 2 ^ 66 }
{
    match event {
        Event::Request {
            core,
            client,
            number,
            payload,
        } => {
            two(b"request", u64::from(*core), u64::from(*client))
                + 1
                + digits(u64::from(*number))
                + 1
                + word_length(payload.as_slice())
        }
        Event::Propose { core } => one(b"propose", u64::from(*core)),
        Event::Timeout { core, leader } => {
            two(b"timeout", u64::from(*core), u64::from(leader.0))
        }
        Event::Ask { core, peer } => two(b"ask", u64::from(*core), u64::from(peer.0)),
        Event::Deliver { packet } => one(b"deliver", *packet),
        Event::Lose { packet } => one(b"lose", *packet),
        Event::Pump => 4,
        Event::Calm { pumps } => one(b"calm", u64::from(*pumps)),
        Event::Hold { core } => one(b"hold", u64::from(*core)),
        Event::Free { core } => one(b"free", u64::from(*core)),
        Event::Drop { core } => one(b"drop", u64::from(*core)),
        Event::Restart { core } => one(b"restart", u64::from(*core)),
        Event::Crash { core, calls } => two(b"crash", u64::from(*core), u64::from(*calls)),
        Event::Bytes { core, bytes } => {
            one(b"bytes", u64::from(*core)) + 1 + word_length(bytes.as_slice())
        }
    }
}
