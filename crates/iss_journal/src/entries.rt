// The entries of a journal, as they are laid out in its file.
ghost use Rattle.iss_journal.specs.Views.{AreMarks, IsBook, TakesFrame, end_at, entries_at};
ghost use Rattle.std.specs.Prelude.{◌≡◌, ◌+◌, ◌<◌, ◌≤◌, ◌++◌, ℕ, List, [], ◌∷◌, length, vec_len, vec_capacity};
ghost use Rattle.iss_journal.specs.Frames.{short_prop, frame, frames};
ghost use Rattle.std.proofs.Props.{props};

use std::alloc::{AllocError, Global};

/// The longest entry, in bytes.
pub const MAX_ENTRY: usize = 200_000_100;

// The gate is the byte before an entry. This value marks the entry as appended (open); any other value is a closed
// gate.
pub(crate) const OPEN: u8 = 1;

pub(crate) const CLOSED: u8 = 0;

/// Entries, in the order in which they were appended.
#[derive(Drop)]
pub(crate) struct Entries {
    // The file's bytes up to its last gate, followed by the entry that is being appended.
    bytes: Vec<u8>,
    count: usize,
    // The offset of the gate of each eighth entry. The other offsets follow from the lengths after the gates.
    marks: Vec<u64>,
    // The offset of the last gate, which has no entry yet.
    last: usize,
    ghost book: { IsBook bytes.items count last } by { Prim.hlevel (short_prop, props) },
    ghost marked: { AreMarks marks.items (entries_at bytes.items count) },
}

// Appends bytes for which there is room.
#[inline(always)]
fn put_some(bytes: &mut Vec<u8>, some: &[u8])
    requires room { vec_len bytes.old + length some.now ≤ vec_capacity bytes.old }
    ensures items { bytes.new.items ≡ bytes.old.items ++ some.now }
    ensures no_less { vec_capacity bytes.old ≤ vec_capacity bytes.new }
{
    match some {
        [] => (),
        [byte] => bytes.push_reserved(*byte),
        _ => {
            let _ = bytes.extend_from_slice(some);
        }
    }
}

// Appends the frame of an entry given in two parts, and a closed gate.
#[inline(always)]
fn put_frame(bytes: &mut Vec<u8>, head: &[u8], body: &[u8])
    requires { TakesFrame (head.now ++ body.now) bytes.old }
    ensures items { bytes.new.items ≡ bytes.old.items ++ (frame (head.now ++ body.now) ++ 0 ∷ []) }
    ensures no_less { vec_capacity bytes.old ≤ vec_capacity bytes.new }
{
    let len = head.len() + body.len();
    let [a, b, c, d] = (len as u32).to_be_bytes();
    bytes.push_reserved(OPEN);
    bytes.push_reserved(a);
    bytes.push_reserved(b);
    bytes.push_reserved(c);
    bytes.push_reserved(d);
    put_some(bytes, head);
    put_some(bytes, body);
    bytes.push_reserved(CLOSED);
}

// The offset at which the entry ends whose gate is at `gate`.
fn end_of(bytes: &[u8], gate: usize) -> usize
    requires within { end_at bytes.now gate ≤ length bytes.now }
    ensures { result ≡ end_at bytes.now gate }
{
    let [a, b, c, d, ..] = &bytes[gate + 1..] else {
        return gate;
    };
    gate + 5 + u32::from_be_bytes([*a, *b, *c, *d]) as usize
}

// Records the offset of an entry's gate if it is an eighth entry. There are `count` entries before it.
// rule: Journal: The offset of each eighth gate is remembered; the others follow from lengths
#[inline(always)]
pub(crate) fn mark(marks: &mut Vec<u64>, count: usize, gate: usize)
    requires room { vec_len marks.old < vec_capacity marks.old }
    ensures marked { (entries : List (List ℕ)) (entry : List ℕ) → count ≡ length entries →
        gate ≡ length (frames entries) →
        AreMarks marks.old.items entries → AreMarks marks.new.items (entries ++ entry ∷ []) }
    ensures len { vec_len marks.new ≤ vec_len marks.old + 1 }
    ensures capacity { vec_capacity marks.old ≤ vec_capacity marks.new }
{
    if count / 8 >= marks.len() {
        marks.push_reserved(gate as u64);
    }
}

impl Entries {
    ghost use Rattle.std.specs.Prelude.{◌≡◌, ◌+◌, ◌<◌, ◌≤◌, ◌++◌, [], length, take, slice_index_or, OnOk, IsTrue, ◌↔◌};
    ghost use Rattle.iss_journal.specs.Frames.{frames};
    ghost use Rattle.iss_journal.specs.Views.{IsLaidOut, entries_at};
    ghost use Rattle.iss_journal.specs.EntryViews.{Commits, HasGate, HasPlace, HasRoomFor, IsFirst, IsReady, IsSameBook, Stages, behind_gate, entries_in};

    pub(crate) fn new(alloc: Global) -> Entries
        ensures entries { entries_in result ≡ [] }
        ensures last { result.last ≡ 0 }
    {
        Entries {
            bytes: Vec::new(alloc),
            count: 0,
            marks: Vec::new(alloc),
            last: 0,
        }
    }

    // The `count` entries laid out in these bytes.
    pub(crate) fn from_parts(bytes: Vec<u8>, count: usize, marks: Vec<u64>, last: usize) -> Entries
        requires { IsLaidOut bytes.items count last marks.items }
        ensures entries { entries_in result ≡ entries_at bytes.items count }
        ensures bytes { result.bytes.items ≡ bytes.items }
    {
        Entries {
            bytes,
            count,
            marks,
            last,
        }
    }

    /// The number of entries.
    pub(crate) fn len(&self) -> usize
        ensures { result ≡ length (entries_in self.now) }
    {
        self.count
    }

    /// Entry `k`, counted from 0.
    pub(crate) fn get(&self, k: usize) -> &[u8]
        requires { k < length (entries_in self.now) }
        ensures { result.now ≡ slice_index_or (entries_in self.now) k [] }
    {
        let gate = self.gate_of(k) as usize;
        let end = end_of(&self.bytes, gate);
        &self.bytes[gate + 5..end]
    }

    /// The offset in the file of the gate of entry `k`, counted from 0.
    pub(crate) fn gate_of(&self, k: usize) -> u64
        requires { k < length (entries_in self.now) }
        ensures { result ≡ length (frames (take k (entries_in self.now))) }
    {
        let mut gate = self.marks[k / 8] as usize;
        for i in 0..k % 8 {
            gate = end_of(&self.bytes, gate);
        }
        gate as u64
    }

    // Keeps the first `count` entries, and the bytes of no other.
    pub(crate) fn keep_first(&mut self, count: usize)
        requires { count ≤ length (entries_in self.old) }
        ensures { IsFirst count self.old self.new }
    {
        let gate = self.gate_before(count);
        self.bytes.truncate(gate);
        self.marks.truncate(count.div_ceil(8));
        self.count = count;
        self.last = gate;
    }

    // The offset of the gate behind the first `count` entries.
    fn gate_before(&self, count: usize) -> usize
        requires { count ≤ length (entries_in self.now) }
        ensures { result ≡ length (frames (take count (entries_in self.now))) }
    {
        if count == self.count {
            return self.last;
        }
        self.gate_of(count) as usize
    }

    // The offset of the next entry's gate.
    pub(crate) fn last(&self) -> usize
        ensures field { result ≡ self.now.last }
        ensures offset { result ≡ length (frames (entries_in self.now)) }
    {
        self.last
    }

    // Whether there are bytes after the last gate.
    pub(crate) fn has_tail(&self) -> bool
        ensures { IsTrue result ↔ (length (frames (entries_in self.now)) + 1 < length self.now.bytes.items) }
    {
        self.bytes.len() - self.last > 1
    }

    // Makes room for `entries` entries, the first of which has `bytes` bytes.
    pub(crate) fn reserve(&mut self, entries: usize, bytes: usize) -> Result<(), AllocError>
        ensures same { IsSameBook self.old self.new }
        ensures room { OnOk result (HasRoomFor entries bytes self.old self.new) }
    {
        let wanted = bytes.checked_add(6).ok_or(AllocError)?;
        self.bytes.reserve(wanted)?;
        self.marks.reserve(entries)
    }

    // Puts an entry given in two parts after the last gate: its length, its bytes and a closed gate.
    #[inline(always)]
    pub(crate) fn stage(&mut self, head: &[u8], body: &[u8])
        requires { HasPlace (head.now ++ body.now) self.old }
        ensures { Stages (head.now ++ body.now) self.old self.new }
    {
        self.bytes.truncate(self.last);
        put_frame(&mut self.bytes, head, body);
    }

    // The staged bytes after the gate.
    pub(crate) fn staged(&self) -> &[u8]
        requires { HasGate self.now }
        ensures { result.now ≡ behind_gate self.now }
    {
        &self.bytes[self.last + 1..]
    }

    // The staged entry becomes the last entry.
    #[inline(always)]
    pub(crate) fn commit(&mut self, head: &[u8], body: &[u8])
        requires { IsReady (head.now ++ body.now) self.old }
        ensures { Commits (head.now ++ body.now) self.old self.new }
    {
        mark(&mut self.marks, self.count, self.last);
        self.count += 1;
        self.last += 5 + (head.len() + body.len());
    }
}
