//! Reading a schedule's text.
ghost use Rattle.std.specs.Prelude.{◌≡◌, ◌≤◌, ◌<◌, ◌+◌, ◌-◌, ◌^◌, ◌++◌, ℕ, List, IfOk, IfErr, OnOk, length, map};
ghost use Rattle.iss_request.specs.Setup.{IsGoodSetup};
ghost use Rattle.iss_schedule.specs.BadLines.{IsInHeader, IsRefused, IsNoText};
ghost use Rattle.iss_schedule.specs.Events.{spell_event, IsInRange, AreInRange};
ghost use Rattle.iss_schedule.specs.Places.{GoesPast, IsEventRefused, IsEventsRefused};
ghost use Rattle.iss_schedule.specs.Schedules.{IsSchedule, IsKnown, header_lines, most_bytes, most_events};
ghost use Rattle.iss_schedule.specs.Words.{ended};
ghost use Rattle.iss_schedule.specs.declared.schedules.Schedule.{Schedule};

use crate::errors::{LineFault, ReadError, bad_line};
use crate::events::event_of;
use crate::faulty::{Bounds, read_faulty};
use crate::forms::fault_of;
use crate::header::{Cluster, read_header, setup_of};
use crate::laws::texts_and_schedules;
use crate::lines::Lines;
use crate::schedules::{Event, Schedule};
use iss_request::seqs::Seq;
use iss_request::setups::Setup;
use std::alloc::Global;

/// The maximal length of a text, in bytes.
pub const MOST_BYTES: usize = 16_777_216;

/// The maximal number of events in a schedule.
pub const MOST_EVENTS: usize = 1_048_576;

// Reads the lines after the header, each of which is an event.
// rule: Schedules: A schedule has at most 16 MiB and 1,048,576 events
fn read_events(alloc: Global, setup: &Setup, lines: &mut Lines) -> Result<Seq<Event>, ReadError>
    requires known { IsKnown setup.now }
    requires read { lines.old.read ≡ 11 }
    ensures text { IfOk result (λ es. lines.old.rest ≡ ended (map spell_event es)) }
    ensures range { IfOk result (AreInRange setup.now) }
    ensures few { IfOk result (λ es. length es ≤ most_events) }
    ensures bad { IfErr result (IsEventsRefused setup.now lines.old.rest) }
{
    let mut events = Seq::new(alloc);
    'lines: while !lines.is_done() {
        if events.len() >= MOST_EVENTS {
            return Err(ReadError::BadLine {
                line: lines.read() + 1,
                why: LineFault::Size,
            });
        }
        let event = read_event(alloc, setup, lines)?;
        events.push(event)?;
    }
    Ok(events)
}

// Reads the next line, which is an event.
fn read_event(alloc: Global, setup: &Setup, lines: &mut Lines) -> Result<Event, ReadError>
    requires known { IsKnown setup.now }
    requires read { lines.old.read < 2 ^ 32 - 1 }
    ensures ok { IfOk result (λ e. GoesPast (spell_event e) lines.old lines.new) }
    ensures range { IfOk result (IsInRange setup.now) }
    ensures count { OnOk result (lines.new.read ≡ lines.old.read + 1) }
    ensures bad { IfErr result (IsEventRefused setup.now lines.old) }
{
    let line = match lines.next() {
        Ok(line) => line,
        Err(why) => return Err(bad_line(lines, why)),
    };
    match event_of(alloc, setup, line)? {
        Some(event) => Ok(event),
        None => {
            let why = fault_of(alloc, setup, line)?;
            Err(bad_line(lines, why))
        }
    }
}

// The text before what is still to be read.
fn front<'a>(text: &'a [u8], rest: &[u8]) -> &'a [u8]
    requires { length rest.now ≤ length text.now }
    ensures { (read : List ℕ) → text.now ≡ read ++ rest.now → result.now ≡ read }
{
    &text[..text.len() - rest.len()]
}

/// Reads the header at the front of a text, and returns its set-up. `lines` must be at the start of the text, and is at
/// the line after the header afterwards.
///
/// # Errors
///
/// `BadLine` if the text has no header: the first bad line, which is at most 11. `NoMemory` if out of memory.
pub fn read_setup(alloc: Global, bytes: &[u8], lines: &mut Lines) -> Result<Setup, ReadError>
    requires all { lines.old ≡ record { rest = bytes.now; read = 0 } }
    requires short { length bytes.now ≤ most_bytes }
    ensures known { IfOk result IsKnown }
    ensures text { IfOk result (λ s. bytes.now ≡ ended (header_lines s) ++ lines.new.rest) }
    ensures read { OnOk result (lines.new.read ≡ 11) }
    ensures bad { IfErr result (IsRefused bytes.now) }
    ensures header { IfErr result IsInHeader }
{
    let values = match read_header(lines) {
        Ok(values) => values,
        Err(why) => return Err(bad_line(lines, why)),
    };
    let cluster = Cluster::of(&values);
    let bounds = Bounds {
        most: cluster.most_faulty(),
        n: cluster.nodes(),
    };
    let faulty = read_faulty(alloc, lines, bounds)?;
    Ok(setup_of(&values, faulty, front(bytes, lines.rest())))
}

// The schedule with this text, or the first bad line.
fn read_text(alloc: Global, bytes: &[u8]) -> Result<Schedule, ReadError>
    ensures ok { IfOk result (IsSchedule bytes.now) }
    ensures bad { IfErr result (IsRefused bytes.now) }
{
    if bytes.len() > MOST_BYTES {
        return Err(ReadError::BadLine {
            line: 0,
            why: LineFault::Size,
        });
    }
    let mut lines = Lines::of(bytes);
    let setup = read_setup(alloc, bytes, &mut lines)?;
    let events = read_events(alloc, &setup, &mut lines)?;
    Ok(Schedule { setup, events })
}

/// The schedule with this text.
///
/// # Errors
///
/// `BadLine` if no schedule has this text: the first bad line, counted from 1, and the first reason for it. `NoMemory`
/// if out of memory.
// rule: Schedules: A schedule is a header of eleven fields, then one event a line
pub fn read(alloc: Global, bytes: &[u8]) -> Result<Schedule, ReadError>
    ensures ok { IfOk result (IsSchedule bytes.now) }
    ensures good { IfOk result (λ s. IsGoodSetup s.setup) }
    ensures range { IfOk result (λ s. AreInRange s.setup s.events) }
    ensures bad { IfErr result (IsRefused bytes.now) }
    ensures none { IfErr result (IsNoText bytes.now) }
{
    texts_and_schedules();
    read_text(alloc, bytes)
}
