//! The lines after a header, one by one.
ghost use Rattle.std.specs.Prelude.{◌≡◌, ◌≤◌, ◌<◌, ◌+◌, ◌-◌, ◌^◌, ◌++◌, ◌∷◌, [], IfOk, IfErr, OnOk, IsTrue, ◌↔◌};
ghost use Rattle.iss_schedule.specs.Places.{GoesPast};
ghost use Rattle.iss_schedule.specs.Schedules.{most_events};
ghost use Rattle.iss_schedule.specs.declared.errors.ReadError.TheVariants.{BadLine};
ghost use Rattle.iss_texts.specs.Bodies.{last_line};
ghost use Rattle.iss_texts.specs.Internal.Refusals.{IsBehindRefused, IsNextRefused};

use iss_request::NoMemory;
use iss_schedule::{LineFault, Lines, MOST_EVENTS, ReadError, put};

// The number of lines of a header.
const HEADER: u32 = 11;

/// The error for the line that was read last.
pub fn bad_line(lines: &Lines, why: LineFault) -> ReadError
    ensures { result ≡ BadLine lines.now.read why }
{
    ReadError::BadLine {
        line: lines.read(),
        why,
    }
}

/// The next line after the header. The text may not have more lines than a schedule.
///
/// # Errors
///
/// `BadLine` for this line: `Size` if it is one too many, and otherwise `Cut` if no line feed ends it.
// rule: Texts: After a header stand at most as many lines as a schedule has events, the last one included
pub fn next_line<'a>(lines: &mut Lines<'a>) -> Result<&'a [u8], ReadError>
    requires behind { 11 ≤ lines.old.read }
    requires few { lines.old.read ≤ 11 + most_events }
    ensures ok { IfOk result (λ line. GoesPast line.now lines.old lines.new) }
    ensures count { OnOk result (lines.new.read ≡ lines.old.read + 1) }
    ensures room { OnOk result (lines.old.read < 11 + most_events) }
    ensures bad { IfErr result (IsNextRefused lines.old) }
{
    if !lines.is_done() && lines.read() - HEADER >= MOST_EVENTS as u32 {
        return Err(ReadError::BadLine {
            line: lines.read() + 1,
            why: LineFault::Size,
        });
    }
    match lines.next() {
        Ok(line) => Ok(line),
        Err(why) => Err(bad_line(lines, why)),
    }
}

/// Whether the line is the last one.
pub fn is_last(line: &[u8]) -> bool
    ensures { IsTrue result ↔ (line.now ≡ last_line) }
{
    line == b"end".as_slice()
}

/// Nothing may stand after the last line.
///
/// # Errors
///
/// `BadLine` for the line after it: `Cut` if no line feed ends it, and otherwise `Form`.
// rule: Texts: Nothing stands after the last line
pub fn read_behind(lines: &mut Lines) -> Result<(), ReadError>
    requires { lines.old.read < 2 ^ 32 - 1 }
    ensures ok { OnOk result (lines.old.rest ≡ []) }
    ensures bad { IfErr result (IsBehindRefused lines.old) }
{
    if lines.is_done() {
        return Ok(());
    }
    match lines.next() {
        Ok(_line) => Err(bad_line(lines, LineFault::Form)),
        Err(why) => Err(bad_line(lines, why)),
    }
}

/// Appends the last line. The only error is out of memory.
pub fn put_last(out: &mut Vec<u8>) -> Result<(), NoMemory>
    ensures { OnOk result (out.new.items ≡ out.old.items ++ last_line ++ 10 ∷ []) }
{
    put(out, b"end\n")
}
