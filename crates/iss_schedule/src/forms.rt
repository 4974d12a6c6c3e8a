//! Whether the line of an event has the form that its name requires, whatever the size of its numbers.
ghost use Rattle.std.specs.Prelude.{◌≡◌, ◌↔◌, IsTrue, true, IfOk};
ghost use Rattle.iss_schedule.specs.Forms.{number_count, has_bytes, AreArguments, IsEventFault};

use crate::errors::LineFault;
use crate::events::{bytes_in, is_stopping};
use crate::names::{Name, name_of};
use crate::words::{Words, is_number};
use iss_request::errors::NoMemory;
use iss_request::setups::Setup;
use std::alloc::Global;

// How many numbers follow a name.
fn count_of_numbers(name: Name) -> u32
    ensures { result ≡ number_count name }
{
    match name {
        Name::Request => 3,
        Name::Timeout | Name::Ask | Name::Crash => 2,
        Name::Pump => 0,
        _ => 1,
    }
}

// Whether bytes follow the numbers.
fn ends_in_bytes(name: Name) -> bool
    ensures { result ≡ has_bytes name }
{
    matches!(name, Name::Request | Name::Bytes)
}

// Whether the words are `numbers` numbers, then bytes if required, and nothing more.
fn are_arguments(
    alloc: Global,
    numbers: u32,
    bytes: bool,
    words: &mut Words,
) -> Result<bool, NoMemory>
    ensures { IfOk result (λ b. IsTrue b ↔ AreArguments numbers bytes words.old) }
{
    for _ in 0..numbers {
        let Some(word) = words.next() else {
            return Ok(false);
        };
        if !is_number(word) {
            return Ok(false);
        }
    }
    if !bytes {
        return Ok(words.is_done());
    }
    are_bytes(alloc, words)
}

// Whether the last word encodes bytes.
fn are_bytes(alloc: Global, words: &mut Words) -> Result<bool, NoMemory>
    ensures { IfOk result (λ b. IsTrue b ↔ AreArguments 0 true words.old) }
{
    Ok(bytes_in(alloc, words)?.is_some())
}

/// What is wrong with a line that is no event in range.
pub fn fault_of(alloc: Global, setup: &Setup, line: &[u8]) -> Result<LineFault, NoMemory>
    ensures { IfOk result (IsEventFault setup.now line.now) }
{
    let mut words = Words::of(line);
    let Some(word) = words.next() else {
        return Ok(LineFault::Form);
    };
    let Some(name) = name_of(word) else {
        return Ok(LineFault::Form);
    };
    if !are_arguments(
        alloc,
        count_of_numbers(name),
        ends_in_bytes(name),
        &mut words,
    )? {
        return Ok(LineFault::Form);
    }
    if is_injection(name) && is_stopping(setup) {
        Ok(LineFault::Injected)
    } else {
        Ok(LineFault::Range)
    }
}

fn is_injection(name: Name) -> bool
    ensures { IsTrue result ↔ (name ≡ Name.Bytes) }
{
    matches!(name, Name::Bytes)
}
