//! Why a text is not a schedule.
ghost use Rattle.std.specs.Prelude.{◌≡◌};
ghost use Rattle.iss_schedule.specs.declared.errors.ReadError.TheVariants.{BadLine};

use crate::lines::Lines;
use iss_request::errors::NoMemory as WantOfMemory;
use std::alloc::AllocError;

/// What is wrong with a line. If several reasons hold, the first in this order counts; only `Size` comes before all
/// others.
#[derive(Clone, Copy, Debug, PartialEq, Eq)]
pub enum LineFault {
    /// No line feed ends the line, or the text ends before its header is complete.
    Cut,
    /// The line is not spelled as its place requires.
    Form,
    /// The header's faulty nodes break their rule: strictly ascending, below n, at most f, and none in the crash model.
    Faulty,
    /// The line injects bytes into a core, but the module is in the crash model.
    Injected,
    /// A number or a payload is out of range.
    Range,
    /// The text has too many bytes (line 0), or too many events.
    Size,
}

/// Why a text could not be read.
#[derive(Clone, Copy, Debug, PartialEq, Eq)]
pub enum ReadError {
    /// The first bad line, counted from 1, and what is wrong with it.
    BadLine { line: u32, why: LineFault },
    /// Out of memory.
    NoMemory,
}

impl From<WantOfMemory> for ReadError {
    ghost use Rattle.std.specs.Prelude.{◌≡◌};
    ghost use Rattle.iss_schedule.specs.declared.errors.ReadError.TheVariants.{NoMemory};

    ghost from_gives = { λ _ e. e ≡ NoMemory };

    fn from(_error: WantOfMemory) -> ReadError {
        ReadError::NoMemory
    }
}

impl From<AllocError> for ReadError {
    ghost use Rattle.std.specs.Prelude.{◌≡◌};
    ghost use Rattle.iss_schedule.specs.declared.errors.ReadError.TheVariants.{NoMemory};

    ghost from_gives = { λ _ e. e ≡ NoMemory };

    fn from(_error: AllocError) -> ReadError {
        ReadError::NoMemory
    }
}

// The error for the line that was read last.
// rule: Schedules: The first bad line is named, with the first reason that holds
pub(crate) fn bad_line(lines: &Lines, why: LineFault) -> ReadError
    ensures { result ≡ BadLine lines.now.read why }
{
    ReadError::BadLine {
        line: lines.read(),
        why,
    }
}
