//! Reading the epochs of an export.
ghost use Rattle.std.specs.Prelude.{◌≡◌, ◌≤◌, ◌+◌, ◌++◌, [], IfOk, IfErr, length};
ghost use Rattle.iss_schedule.specs.Schedules.{IsKnown, most_bytes, most_events};
ghost use Rattle.iss_schedule.specs.Words.{ended};
ghost use Rattle.iss_audit.specs.Exports.{EachEpoch, IsExport, IsWhole, body_lines, log_of, slots_of};
ghost use Rattle.iss_audit.specs.Refusals.{IsBodyRefused, IsReadRefused};

use crate::exports::{CertifiedEpoch, Export};
use crate::lines::{cert_in, value_in};
use iss_request::{Epoch, Seq, Setup};
use iss_schedule::{LineFault, Lines, MOST_BYTES, ReadError, read_setup};
use iss_texts::{bad_line, is_last, next_line, read_behind};
use std::alloc::Global;
use std::mem;

// The number of slots of the epoch after these.
// rule: Audit: An epoch has the number of values that its place in the log requires
fn slots_after(setup: &Setup, _epochs: &[CertifiedEpoch]) -> u64
    ensures { result ≡ slots_of setup.now (length _epochs.now) (log_of _epochs.now) }
{
    setup.epoch
}

// Reads the lines after the header up to the last line.
fn read_epochs(
    alloc: Global,
    setup: &Setup,
    lines: &mut Lines,
) -> Result<Seq<CertifiedEpoch>, ReadError>
    requires read { lines.old.read ≡ 11 }
    ensures text { IfOk result (λ xs. lines.old.rest ≡ ended (body_lines setup.now.version xs) ++ lines.new.rest) }
    ensures whole { IfOk result (EachEpoch (IsWhole setup.now) []) }
    ensures count { IfOk result (λ xs. lines.new.read ≡ 11 + length (body_lines setup.now.version xs)) }
    ensures few { IfOk result (λ xs. length (body_lines setup.now.version xs) ≤ most_events) }
    ensures bad { IfErr result (IsBodyRefused setup.now lines.old.rest) }
{
    let mut epochs = Seq::new(alloc);
    let mut values = Seq::new(alloc);
    'lines: loop {
        let line = next_line(lines)?;
        if values.len() == 0 && is_last(line) {
            return Ok(epochs);
        }
        if (values.len() as u64) < slots_after(setup, epochs.as_slice()) {
            let Some(value) = value_in(alloc, setup.version, line)? else {
                return Err(bad_line(lines, LineFault::Form));
            };
            values.push(value)?;
        } else {
            let Some(cert) = cert_in(alloc, Epoch(epochs.len() as u64), line)? else {
                return Err(bad_line(lines, LineFault::Form));
            };
            let values = mem::replace(&mut values, Seq::new(alloc));
            epochs.push(CertifiedEpoch { values, cert })?;
        }
    }
}

// Reads all lines after the header.
fn read_body(
    alloc: Global,
    setup: &Setup,
    lines: &mut Lines,
) -> Result<Seq<CertifiedEpoch>, ReadError>
    requires read { lines.old.read ≡ 11 }
    ensures text { IfOk result (λ xs. lines.old.rest ≡ ended (body_lines setup.now.version xs)) }
    ensures whole { IfOk result (EachEpoch (IsWhole setup.now) []) }
    ensures few { IfOk result (λ xs. length (body_lines setup.now.version xs) ≤ most_events) }
    ensures bad { IfErr result (IsBodyRefused setup.now lines.old.rest) }
{
    let epochs = read_epochs(alloc, setup, lines)?;
    read_behind(lines)?;
    Ok(epochs)
}

/// The export with this text.
///
/// # Errors
///
/// `BadLine` if no export has this text: the first bad line, counted from 1, and the first reason for it. `NoMemory` if
/// out of memory.
// rule: Audit: An export is a header, each epoch's values and certificate, and a last line
pub fn read_export(alloc: Global, bytes: &[u8]) -> Result<Export, ReadError>
    ensures ok { IfOk result (IsExport bytes.now) }
    ensures bad { IfErr result (IsReadRefused bytes.now) }
{
    if bytes.len() > MOST_BYTES {
        return Err(ReadError::BadLine {
            line: 0,
            why: LineFault::Size,
        });
    }
    let mut lines = Lines::of(bytes);
    let setup = read_setup(alloc, bytes, &mut lines)?;
    let epochs = read_body(alloc, &setup, &mut lines)?;
    Ok(Export { setup, epochs })
}
