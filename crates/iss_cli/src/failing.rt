//! Sources and sinks in memory with scripted failures, for tests.
ghost use Rattle.std.specs.Prelude.{◌≡◌, ◌↔◌, ◌≤◌, ◌<◌, [], length, max, vec_len, IsErr};
ghost use Rattle.std.specs.List.{Contains};
ghost use Rattle.iss_cli.specs.Ends.{HasCause};

use crate::ends::{Sink, Source};
use crate::errors::{EndError, Failed};
use crate::memory::{count_empty, give};
use std::alloc::Global;

/// The calls that fail, by their numbers from 0, and how many have failed.
#[derive(Drop)]
pub struct Script {
    failing: Vec<u64>,
    calls: u64,
    faults: u64,
}

impl Script {
    /// The calls with these numbers fail.
    pub fn new(failing: Vec<u64>) -> Script
        ensures { result ≡ record { failing = failing; calls = 0; faults = 0 } }
    {
        Script {
            failing,
            calls: 0,
            faults: 0,
        }
    }

    // Counts one more call. It fails if the script says so.
    // rule: Program: A failure is reported only where the source or the sink counted one
    fn call(&mut self) -> Result<(), Failed>
        ensures cause { HasCause self.old.faults self.new.faults (IsErr result) }
        ensures failing { self.new.failing ≡ self.old.failing }
        ensures fails { IsErr result ↔ Contains self.old.failing.items self.old.calls }
    {
        let number = self.calls;
        self.calls = self.calls.saturating_add(1);
        if !self.failing.contains(&number) {
            return Ok(());
        }
        self.faults = self.faults.saturating_add(1);
        Err(Failed)
    }
}

/// Bytes in memory, of which a call gives at most `most`. Calls fail as the script says.
#[derive(Drop)]
pub struct FailingSource {
    bytes: Vec<u8>,
    at: usize,
    most: usize,
    script: Script,
    empties: u64,
    ghost within: { at ≤ vec_len bytes },
    ghost some: { 0 < most },
}

impl FailingSource {
    /// All these bytes are left. A call gives at most `most` of them; 0 counts as 1.
    pub fn new(bytes: Vec<u8>, most: usize, script: Script) -> FailingSource
        ensures bytes { result.bytes ≡ bytes }
        ensures at { result.at ≡ 0 }
        ensures most { result.most ≡ max most 1 }
        ensures script { result.script ≡ script }
        ensures empties { result.empties ≡ 0 }
    {
        FailingSource {
            bytes,
            at: 0,
            most: most.max(1),
            script,
            empties: 0,
        }
    }
}

impl Source for FailingSource {
    ghost use Rattle.std.specs.Prelude.{Some, drop};

    ghost left = { λ s. Some (drop s.at s.bytes.items) };

    ghost faults = { λ s. s.script.faults };

    ghost empties = { λ s. s.empties };

    fn take(&mut self, into: &mut [u8]) -> Result<usize, Failed> {
        self.script.call()?;
        let taken = give(self.bytes.as_slice(), self.at, into, self.most);
        self.at += taken;
        self.empties = count_empty(taken, self.empties);
        Ok(taken)
    }
}

/// Bytes in memory, of which a call takes at most `most`. Calls fail as the script says.
#[derive(Drop)]
pub struct FailingSink {
    held: Vec<u8>,
    most: usize,
    script: Script,
    ghost some: { 0 < most },
}

impl FailingSink {
    /// An empty sink. A call takes at most `most` bytes; 0 counts as 1.
    pub fn new(alloc: Global, most: usize, script: Script) -> FailingSink
        ensures held { result.held.items ≡ [] }
        ensures most { result.most ≡ max most 1 }
        ensures script { result.script ≡ script }
    {
        FailingSink {
            held: Vec::new(alloc),
            most: most.max(1),
            script,
        }
    }

    /// The bytes that were written.
    pub fn held(&self) -> &[u8]
        ensures { result.now ≡ self.now.held.items }
    {
        self.held.as_slice()
    }
}

impl Sink for FailingSink {
    ghost use Rattle.std.specs.Prelude.{Some};

    ghost held = { λ s. Some s.held.items };

    ghost faults = { λ s. s.script.faults };

    fn put(&mut self, bytes: &[u8]) -> Result<usize, EndError> {
        self.script.call()?;
        let count = self.most.min(bytes.len());
        self.held.extend_from_slice(&bytes[..count])?;
        Ok(count)
    }
}
