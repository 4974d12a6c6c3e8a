// Links with scripted failures, for tests.
ghost use Rattle.std.specs.Prelude.{◌≡◌, ◌↔◌, ℕ, IsErr, IsErrOf};
ghost use Rattle.std.specs.List.{Contains};
ghost use Rattle.iss_links.specs.Calls.{HasCause};

use crate::{Arrival, EndError, Failed, Links, MemoryLinks};

/// Links in memory, some of whose calls fail.
#[derive(Drop)]
pub struct FailingLinks {
    links: MemoryLinks,
    failing: Vec<u64>,
    calls: u64,
    faults: u64,
}

impl FailingLinks {
    /// These links, of whose calls those with the given numbers fail. Calls are numbered from 0.
    pub fn new(links: MemoryLinks, failing: Vec<u64>) -> FailingLinks
        ensures { result ≡ record { links = links; failing = failing; calls = 0; faults = 0 } }
    {
        FailingLinks {
            links,
            failing,
            calls: 0,
            faults: 0,
        }
    }

    // Counts one more call. It fails if its number is listed.
    // rule: Links: A call of links fails only where their count of faults rises
    fn call(&mut self) -> Result<(), Failed>
        ensures cause { HasCause self.old.faults self.new.faults (IsErr result) }
        ensures fails { IsErr result ↔ Contains self.old.failing.items self.old.calls }
        ensures failing { self.new.failing ≡ self.old.failing }
        ensures links { self.new.links ≡ self.old.links }
    {
        let number = self.calls;
        self.calls = self.calls.saturating_add(1);
        if !self.failing.contains(&number) {
            return Ok(());
        }
        self.faults = self.faults.saturating_add(1);
        Err(Failed)
    }
}

impl Links for FailingLinks {
    ghost use Rattle.std.specs.Prelude.{Some};

    ghost ends = { λ links. Some links.links.ends.items };

    ghost faults = { λ links. links.faults };

    fn attach(&mut self, port: u16, first: u32, count: u32) -> Result<(), EndError> {
        self.call()?;
        self.links.attach(port, first, count)
    }

    fn send(&mut self, from: u32, number: u64, to: u32, packet: &[u8]) -> Result<(), EndError> {
        self.call()?;
        self.links.send(from, number, to, packet)
    }

    fn take(&mut self, at: u32) -> Result<Arrival, EndError> {
        self.call()?;
        self.links.take(at)
    }
}
