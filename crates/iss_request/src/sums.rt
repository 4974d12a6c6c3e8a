//! Sums of numbers that count requests, slots and epochs.

ghost use Rattle.std.specs.Prelude.{◌≡◌, ◌+◌, ◌^◌, ◌≤◌, IfOk, OnErr};

use crate::errors::NoMemory;

/// The sum of two numbers. Past 2^64 - 1 it counts as out of memory, which is said here alone: no run counts so far.
pub fn sum(a: u64, b: u64) -> Result<u64, NoMemory>
    ensures sum { IfOk result (λ n. n ≡ a + b) }
    ensures past { OnErr result (2 ^ 64 ≤ a + b) }
{
    match a.checked_add(b) {
        Some(sum) => Ok(sum),
        None => Err(NoMemory),
    }
}
