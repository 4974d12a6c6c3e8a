// The entries of a journal, whose bytes may be shared with others.
ghost use Rattle.std.specs.Prelude.{◌≡◌, length};
ghost use Rattle.iss_journal.specs.EntryViews.{entries_in};

use crate::entries::Entries;
use iss_request::Bytes;
use std::alloc::{AllocError, Global};

/// Entries of a journal, in the order in which they were appended.
#[derive(Drop)]
pub struct SharedEntries {
    // Each entry without its shared end.
    own: Entries,
    // The shared ends of the entries.
    tails: Vec<Bytes>,
    ghost each: { length tails.items ≡ length (entries_in own) },
}

impl SharedEntries {
    ghost use Rattle.std.specs.Prelude.{◌≡◌, ◌+◌, ◌<◌, ◌≤◌, ◌++◌, [], ◌∷◌, length, take, slice_index_or, IfOk, OnOk};
    ghost use Rattle.iss_journal.specs.EntryViews.{HasGate, IsStaged, behind_gate};
    ghost use Rattle.iss_journal.specs.SharedViews.{AreFewer, AreSame, HasSpace, HasSpaceFor, IsLonger, shared_in};

    /// No entries.
    pub(crate) fn new(alloc: Global) -> SharedEntries
        ensures { shared_in result ≡ [] }
    {
        SharedEntries {
            own: Entries::new(alloc),
            tails: Vec::new(alloc),
        }
    }

    /// The number of entries.
    pub fn len(&self) -> usize
        ensures { result ≡ length (shared_in self.now) }
    {
        self.own.len()
    }

    /// A copy of entry `k`, counted from 0.
    pub fn get(&self, alloc: Global, k: usize) -> Result<Vec<u8>, AllocError>
        requires { k < length (shared_in self.now) }
        ensures { IfOk result (λ entry. entry.items ≡ slice_index_or (shared_in self.now) k []) }
    {
        let (head, tail) = self.parts(k);
        let mut entry = Vec::from_slice(alloc, head)?;
        entry.extend_from_slice(tail)?;
        Ok(entry)
    }

    // Entry `k` in two parts, the second of which is shared with others.
    pub(crate) fn parts(&self, k: usize) -> (&[u8], &[u8])
        requires { k < length (shared_in self.now) }
        ensures { result.0.now ++ result.1.now ≡ slice_index_or (shared_in self.now) k [] }
    {
        (self.own.get(k), self.tails[k].as_slice())
    }

    // Keeps the first `count` entries, and the bytes of no other.
    pub(crate) fn keep_first(&mut self, count: usize)
        requires { count ≤ length (shared_in self.old) }
        ensures entries { shared_in self.new ≡ take count (shared_in self.old) }
        ensures fewer { AreFewer self.old self.new }
    {
        self.own.keep_first(count);
        self.tails.truncate(count);
    }

    // Makes room for `entries` entries, of `bytes` bytes in all with their frames.
    pub(crate) fn reserve(&mut self, entries: usize, bytes: usize) -> Result<(), AllocError>
        ensures same { AreSame self.old self.new }
        ensures room { OnOk result (HasSpace entries bytes self.new) }
    {
        self.own.reserve(entries, bytes)?;
        self.tails.reserve(entries)
    }

    // Puts an entry given in two parts after what is kept of the others: its length, its bytes and a closed gate.
    #[inline(always)]
    pub(crate) fn stage(&mut self, head: &[u8], body: &Bytes)
        requires { HasSpaceFor (head.now ++ body.now) self.old }
        ensures same { AreSame self.old self.new }
        ensures bytes { IsStaged (head.now ++ body.now) self.new.own }
    {
        self.own.stage(head, body.as_slice());
    }

    // The staged bytes after the gate.
    pub(crate) fn staged(&self) -> &[u8]
        requires { HasGate self.now.own }
        ensures { result.now ≡ behind_gate self.now.own }
    {
        self.own.staged()
    }

    // Adds an entry. Its head is copied, its body is kept.
    #[inline(always)]
    pub(crate) fn add(&mut self, head: &[u8], body: Bytes)
        requires { HasSpaceFor (head.now ++ body) self.old }
        ensures entries { shared_in self.new ≡ shared_in self.old ++ (head.now ++ body) ∷ [] }
        ensures longer { IsLonger (5 + length (head.now ++ body)) self.old self.new }
    {
        self.own.stage(head, &[]);
        self.own.commit(head, &[]);
        self.tails.push_reserved(body);
    }
}
