// What stays of a journal's entries: the snapshots, and all that follows the last of them.
ghost use Rattle.std.specs.Prelude.{◌≡◌, ◌+◌, ◌++◌, length};
ghost use Rattle.std.specs.List.{filter};
ghost use Rattle.iss_journal.specs.Frames.{frames};
ghost use Rattle.iss_journal.specs.Retained.{behind, is_snapshot, retained};
ghost use Rattle.iss_journal.specs.SharedViews.{shared_in};

use crate::entries::Entries;
use crate::shared::SharedEntries;
use iss_request::Bytes;
use std::alloc::{AllocError, Global};

// The first byte of a snapshot.
const SNAPSHOT: u8 = 5;

/// The entries that stay, and where they lie in the file.
#[derive(Drop)]
pub(crate) struct Retained {
    // The snapshots, and then the entries behind the last of them.
    entries: SharedEntries,
    // The offsets in the file of the snapshots' gates.
    gates: Vec<u64>,
    // The offset in the file of the gate behind the last snapshot.
    start: usize,
    // The offset in the file of the last gate, which has no entry yet.
    end: usize,
    ghost kept: { retained (shared_in entries) ≡ shared_in entries },
    ghost count: { length gates.items ≡ length (filter is_snapshot (shared_in entries)) },
    ghost ends: { end ≡ start + length (frames (behind (shared_in entries))) },
}

// Whether an entry, given in two parts, is a snapshot.
#[inline(always)]
fn begins_snapshot(head: &[u8], body: &[u8]) -> bool
    ensures { result ≡ is_snapshot (head.now ++ body.now) }
{
    match head {
        [kind, ..] => *kind == SNAPSHOT,
        [] => match body {
            [kind, ..] => *kind == SNAPSHOT,
            [] => false,
        },
    }
}

impl Retained {
    ghost use Rattle.std.specs.Prelude.{◌≡◌, ◌<◌, ◌≤◌, ◌++◌, [], true, false, length, get_or, IfOk, OnOk};
    ghost use Rattle.iss_journal.specs.EntryViews.{HasGate, IsStaged, behind_gate, entries_in};
    ghost use Rattle.iss_journal.specs.Retained.{is_snapshot};
    ghost use Rattle.iss_journal.specs.RetainedViews.{Adds, IsSame, Retains, TakesEntry, TakesMore, gates_over, shown_in};
    ghost use Rattle.iss_journal.specs.SharedViews.{shared_in};

    /// Of no entries.
    pub(crate) fn new(alloc: Global) -> Retained
        ensures { Retains [] result }
    {
        Retained {
            entries: SharedEntries::new(alloc),
            gates: Vec::new(alloc),
            start: 0,
            end: 0,
        }
    }

    /// Of all entries of a file.
    pub(crate) fn of(alloc: Global, all: &Entries) -> Result<Retained, AllocError>
        ensures { IfOk result (Retains (entries_in all.now)) }
    {
        let mut kept = Retained::new(alloc);
        for k in 0..all.len() {
            let entry = all.get(k);
            kept.reserve(1, entry.len())?;
            kept.add(entry, Bytes::new(alloc));
        }
        Ok(kept)
    }

    /// The entries.
    pub(crate) fn entries(&self) -> &SharedEntries
        ensures { shared_in result.now ≡ shown_in self.now }
    {
        &self.entries
    }

    /// The offset in the file of the gate of entry `k`, counted from 0.
    pub(crate) fn gate_of(&self, k: usize) -> u64
        requires { k < length (shown_in self.now) }
        ensures { result ≡ get_or (gates_over self.now) k 0 }
    {
        if k < self.gates.len() {
            return self.gates[k];
        }
        self.gate_behind(k)
    }

    // The same for an entry that is no snapshot.
    fn gate_behind(&self, k: usize) -> u64
        requires within { k < length (shown_in self.now) }
        requires late { length self.now.gates.items ≤ k }
        ensures { result ≡ get_or (gates_over self.now) k 0 }
    {
        let _end = self.end;
        let mut gate = self.start;
        for i in self.gates.len()..k {
            let (head, tail) = self.entries.parts(i);
            gate += 5 + head.len() + tail.len();
        }
        gate as u64
    }

    // The offset in the file of the next entry's gate.
    pub(crate) fn end(&self) -> usize
        ensures { result ≡ self.now.end }
    {
        self.end
    }

    // Makes room for `entries` entries, of `bytes` bytes in all with their frames.
    pub(crate) fn reserve(&mut self, entries: usize, bytes: usize) -> Result<(), AllocError>
        ensures same { IsSame self.old self.new }
        ensures room { OnOk result (TakesMore entries bytes self.new) }
    {
        let wanted = bytes.checked_add(6).ok_or(AllocError)?;
        let _end = self.end.checked_add(wanted).ok_or(AllocError)?;
        self.gates.reserve(entries)?;
        self.entries.reserve(entries, bytes)
    }

    // Puts an entry given in two parts after what is kept of the others: its length, its bytes and a closed gate.
    #[inline(always)]
    pub(crate) fn stage(&mut self, head: &[u8], body: &Bytes)
        requires { TakesEntry (head.now ++ body.now) self.old }
        ensures same { IsSame self.old self.new }
        ensures bytes { IsStaged (head.now ++ body.now) self.new.entries.own }
    {
        self.entries.stage(head, body);
    }

    // The staged bytes after the gate.
    pub(crate) fn staged(&self) -> &[u8]
        requires { HasGate self.now.entries.own }
        ensures { result.now ≡ behind_gate self.now.entries.own }
    {
        self.entries.staged()
    }

    // Adds an entry. A snapshot takes the place of all that follows the one before it.
    // rule: Journal: Of the entries stay the snapshots, and all that follows the last of them
    #[inline(always)]
    pub(crate) fn add(&mut self, head: &[u8], body: Bytes)
        requires { TakesEntry (head.now ++ body) self.old }
        ensures { Adds (head.now ++ body) self.old self.new }
    {
        if begins_snapshot(head, body.as_slice()) {
            self.add_snapshot(head, body);
        } else {
            self.add_event(head, body);
        }
    }

    #[inline(always)]
    fn add_event(&mut self, head: &[u8], body: Bytes)
        requires event { is_snapshot (head.now ++ body) ≡ false }
        requires room { TakesEntry (head.now ++ body) self.old }
        ensures { Adds (head.now ++ body) self.old self.new }
    {
        let next = self.end + (5 + (head.len() + body.len()));
        self.entries.add(head, body);
        self.end = next;
    }

    // It takes no memory: the bytes go where those lay that do not stay.
    fn add_snapshot(&mut self, head: &[u8], body: Bytes)
        requires snapshot { is_snapshot (head.now ++ body) ≡ true }
        requires room { TakesEntry (head.now ++ body) self.old }
        ensures { Adds (head.now ++ body) self.old self.new }
    {
        let gate = self.end;
        let next = gate + (5 + (head.len() + body.len()));
        self.entries.keep_first(self.gates.len());
        self.entries.add(head, body);
        self.gates.push_reserved(gate as u64);
        self.start = next;
        self.end = next;
    }
}
