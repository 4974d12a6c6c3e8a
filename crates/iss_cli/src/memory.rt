//! Sources and sinks in memory that never fail.
ghost use Rattle.std.specs.Prelude.{◌≡◌, ◌≤◌, ◌-◌, ◌++◌, [], length, take, drop, min, vec_len};
ghost use Rattle.iss_cli.specs.Ends.{empties_after};

use crate::ends::{Sink, Source};
use crate::errors::{EndError, Failed};
use std::alloc::Global;
use std::marker::Model;

/// Bytes in memory that are left to read.
#[derive(Drop)]
pub struct MemorySource {
    bytes: Vec<u8>,
    at: usize,
    empties: u64,
    ghost within: { at ≤ vec_len bytes },
}

impl MemorySource {
    /// All these bytes are left.
    pub fn new(bytes: Vec<u8>) -> MemorySource
        ensures bytes { result.bytes ≡ bytes }
        ensures at { result.at ≡ 0 }
        ensures empties { result.empties ≡ 0 }
    {
        MemorySource {
            bytes,
            at: 0,
            empties: 0,
        }
    }
}

impl Source for MemorySource {
    ghost use Rattle.std.specs.Prelude.{Some, drop};

    ghost left = { λ s. Some (drop s.at s.bytes.items) };

    ghost faults = { λ s. 0 };

    ghost empties = { λ s. s.empties };

    fn take(&mut self, into: &mut [u8]) -> Result<usize, Failed> {
        let most = into.len();
        let taken = give(self.bytes.as_slice(), self.at, into, most);
        self.at += taken;
        self.empties = count_empty(taken, self.empties);
        Ok(taken)
    }
}

/// How often a source gave nothing, after a call that gave this many bytes.
pub fn count_empty(taken: usize, empties: u64) -> u64
    ensures { result ≡ empties_after taken empties }
{
    if taken == 0 {
        empties.saturating_add(1)
    } else {
        empties
    }
}

/// Copies at most `most` bytes, from index `at` on, into the beginning of `into`. Returns how many.
pub fn give(bytes: &[u8], at: usize, into: &mut [u8], most: usize) -> usize
    requires { at ≤ length bytes.now }
    ensures count { result ≡ min most (min (length into.old) (length bytes.now - at)) }
    ensures filled { into.new ≡ take result (drop at bytes.now) ++ drop result into.old }
{
    let count = most.min(into.len().min(bytes.len() - at));
    into[..count].copy_from_slice(&bytes[at..at + count]);
    count
}

/// Bytes in memory that were written.
#[derive(Drop)]
pub struct MemorySink {
    held: Vec<u8>,
}

impl Model for MemorySink {
    ghost use Rattle.std.specs.Prelude.{ℕ, List};

    ghost Value = { List ℕ };

    ghost view = { λ s. s.held.items };
}

impl MemorySink {
    /// An empty sink.
    pub fn new(alloc: Global) -> MemorySink
        ensures { result ≡ [] }
    {
        MemorySink {
            held: Vec::new(alloc),
        }
    }

    /// The bytes that were written.
    pub fn held(&self) -> &[u8]
        ensures { result.now ≡ self.now }
    {
        self.held.as_slice()
    }
}

impl Sink for MemorySink {
    ghost use Rattle.std.specs.Prelude.{Some};

    ghost held = { λ s. Some s };

    ghost faults = { λ s. 0 };

    fn put(&mut self, bytes: &[u8]) -> Result<usize, EndError> {
        self.held.extend_from_slice(bytes)?;
        Ok(bytes.len())
    }
}
