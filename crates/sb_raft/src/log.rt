//! A node's log and its commit index. The first entry has index 1.
ghost use Rattle.std.specs.Prelude.{◌≡◌, ◌<◌, ◌≤◌, ◌+◌, ◌-◌, ◌^◌, ◌++◌, ◌∷◌, [], length, take, drop, max, option_to_list, IfOk, OnOk, if◌then◌else◌};
ghost use Rattle.iss_request.specs.declared.requests.Value.{Value};
ghost use Rattle.iss_sb.specs.Paired.{paired};
ghost use Rattle.sb_raft.specs.Held.{is_mergeable, no_log, same, starts_with, with_merged};
ghost use Rattle.sb_raft.specs.Logs.{content, contents, filled, last_term, nils, term_at};

use iss_request::{NoMemory, Seq, Slot, Value};
use iss_sb::Content;
use raft_wire::Entry;
use std::alloc::Global;
use std::marker::Model;

/// The most entries that a log may have after a merge.
const LOG_LIMIT: usize = 65_600;

/// The entries, the number of slots that they fill, the commit index, and the number of slots filled up to it.
#[derive(Drop)]
pub struct Log {
    entries: Vec<Entry>,
    filled: usize,
    commit: usize,
    passed: usize,
}

impl Model for Log {
    ghost use Rattle.sb_raft.specs.Held.{AreCounted, LogState};

    ghost Value = { LogState };

    ghost view = { λ l. record { entries = l.entries.items; commit = l.commit } };

    ghost invariant = { λ l. AreCounted l.entries.items l.filled l.commit l.passed };
}

// The value that a content has for a slot; a mark has none.
fn content_of(what: &Content) -> Result<Option<Value>, NoMemory>
    ensures { IfOk result (λ v. option_to_list v ≡ content what.now) }
{
    match what {
        Content::Nil => Ok(Some(Value::Nil)),
        Content::Holds(batch) => Ok(Some(Value::Batch(batch.copy()?))),
        Content::Mark => Ok(None),
    }
}

// How many slots a content fills.
fn fills(what: &Content) -> usize
    ensures { result ≡ length (content what.now) }
{
    match what {
        Content::Mark => 0,
        _ => 1,
    }
}

// Appends the slot at this index of the segment with the value, if there is such a slot.
fn put_slot(
    slots: &[Slot],
    place: usize,
    value: Value,
    fresh: &mut Seq<(Slot, Value)>,
) -> Result<(), NoMemory>
    ensures { OnOk result (fresh.new ≡ fresh.old ++ paired (drop place slots.now) (value ∷ [])) }
{
    let Some(slot) = slots.get(place) else {
        return Ok(());
    };
    fresh.push((*slot, value))
}

impl Log {
    /// The empty log.
    pub fn new(alloc: Global) -> Log
        ensures { result ≡ no_log }
    {
        Log {
            entries: Vec::new(alloc),
            filled: 0,
            commit: 0,
            passed: 0,
        }
    }

    /// The number of entries, which is the index of the last one.
    pub fn len(&self) -> usize
        ensures value { result ≡ length self.now.entries }
        ensures small { result < 2 ^ 63 }
    {
        self.entries.len()
    }

    /// The commit index, at most the log's length.
    pub fn commit(&self) -> usize
        ensures value { result ≡ self.now.commit }
        ensures within { result ≤ length self.now.entries }
    {
        self.commit
    }

    /// How many slots the entries fill.
    pub fn filled(&self) -> usize
        ensures { result ≡ filled self.now.entries }
    {
        self.filled
    }

    /// The term of the entry at this index. It is 0 at index 0, and the last entry's term after the log's end.
    pub fn term_at(&self, index: usize) -> u16
        ensures { result ≡ term_at self.now.entries index }
    {
        let last = index.min(self.entries.len());
        if last == 0 {
            return 0;
        }
        self.entries[last - 1].term
    }

    /// The term of the last entry, 0 for the empty log.
    pub fn last_term(&self) -> u16
        ensures { result ≡ last_term self.now.entries }
    {
        self.term_at(self.entries.len())
    }

    /// Copies of the entries after this index. The only error is out of memory.
    pub fn behind(&self, alloc: Global, index: usize) -> Result<Seq<Entry>, NoMemory>
        ensures { IfOk result (λ es. es ≡ drop index self.now.entries) }
    {
        let mut copies = Seq::new(alloc);
        for at in index..self.entries.len() {
            let entry = self.entries[at].copy()?;
            copies.push(entry)?;
        }
        Ok(copies)
    }

    /// Appends an entry. The only error is out of memory.
    pub fn push(&mut self, entry: Entry) -> Result<(), NoMemory>
        ensures log { OnOk result (self.new ≡ record self.old { entries = self.old.entries ++ entry ∷ [] }) }
        ensures within { self.old.commit ≤ length self.old.entries }
    {
        let more = fills(&entry.what);
        self.entries.push(entry)?;
        self.filled += more;
        Ok(())
    }

    // Whether the entry after this index exists and has this term.
    fn has_term(&self, index: usize, term: u16) -> bool
        ensures { result ≡ starts_with (drop index self.now.entries) term }
    {
        index < self.entries.len() && self.entries[index].term == term
    }

    /// How many of the given entries agree in term with those after this index, from the first on.
    pub fn same(&self, index: usize, entries: &[Entry]) -> usize
        requires { index ≤ length self.now.entries }
        ensures { result ≡ same (drop index self.now.entries) entries.now }
    {
        let _long = self.len();
        for at in 0..entries.len() {
            if !self.has_term(index + at, entries[at].term) {
                return at;
            }
        }
        entries.len()
    }

    // Removes the last entry.
    fn pop(&mut self)
        requires { self.old.commit < length self.old.entries }
        ensures { self.new ≡ record self.old { entries = take (length self.old.entries - 1) self.old.entries } }
    {
        let Some(entry) = self.entries.pop() else {
            return;
        };
        self.filled -= fills(&entry.what);
    }

    /// Removes the entries after this index, none of which is committed.
    pub fn cut(&mut self, index: usize)
        requires { self.old.commit ≤ index }
        ensures { self.new ≡ record self.old { entries = take index self.old.entries } }
    {
        'down: while index < self.entries.len() {
            self.pop();
        }
    }

    // Appends these entries except the first `skip`.
    fn append(&mut self, entries: Vec<Entry>, skip: usize) -> Result<(), NoMemory>
        ensures { OnOk result (self.new ≡ record self.old { entries = self.old.entries ++ drop skip entries.items }) }
    {
        for entry in entries.into_iter().skip(skip) {
            self.push(entry)?;
        }
        Ok(())
    }

    /// Appends `count` entries of nil in this term. The only error is out of memory.
    pub fn push_nils(&mut self, term: u16, count: usize) -> Result<(), NoMemory>
        ensures { OnOk result (self.new ≡ record self.old { entries = self.old.entries ++ nils term count }) }
    {
        for _ in 0..count {
            let what = Content::Nil;
            self.push(Entry { term, what })?;
        }
        Ok(())
    }

    /// Merges entries after this index (Raft: AppendEntries). The log's own entries are removed from the first one on
    /// that differs in term. Returns false, and changes nothing, if a committed entry would be removed or the log would
    /// exceed its limit. The only error is out of memory.
    // rule: Raft: A log has at most 65,600 entries after an Append
    pub fn merge(&mut self, index: usize, entries: Seq<Entry>) -> Result<bool, NoMemory>
        requires { index ≤ length self.old.entries }
        ensures tells { IfOk result (λ b. b ≡ is_mergeable self.old index entries) }
        ensures log { IfOk result (λ b. self.new ≡ (if b then with_merged self.old index entries else self.old)) }
    {
        let same = self.same(index, entries.as_slice());
        if same >= entries.len() {
            return Ok(self.entries.len() <= LOG_LIMIT);
        }
        let stay = index + same;
        if stay < self.commit {
            return Ok(false);
        }
        if index.saturating_add(entries.len()) > LOG_LIMIT {
            return Ok(false);
        }
        self.cut(stay);
        self.append(entries.into_vec(), same)?;
        Ok(true)
    }

    // Commits the next entry, and appends the slot that it fills with its value.
    fn pass(&mut self, slots: &[Slot], fresh: &mut Seq<(Slot, Value)>) -> Result<(), NoMemory>
        requires { self.old.commit < length self.old.entries }
        ensures log { OnOk result (self.new ≡ record self.old { commit = self.old.commit + 1 }) }
        ensures fresh { OnOk result
            (fresh.new ≡ fresh.old ++ paired (drop (filled (take self.old.commit self.old.entries)) slots.now)
            (contents (take 1 (drop self.old.commit self.old.entries)))) }
    {
        let value = content_of(&self.entries[self.commit].what)?;
        self.commit += 1;
        let Some(value) = value else {
            return Ok(());
        };
        let place = self.passed;
        self.passed += 1;
        put_slot(slots, place, value, fresh)
    }

    /// Commits up to this index, if the commit index is lower. Returns the slots that this fills, with their values.
    /// The only error is out of memory.
    pub fn commit_to(
        &mut self,
        alloc: Global,
        index: usize,
        slots: &[Slot],
    ) -> Result<Seq<(Slot, Value)>, NoMemory>
        requires { index ≤ length self.old.entries }
        ensures log { OnOk result (self.new ≡ record self.old { commit = max self.old.commit index }) }
        ensures filled { IfOk result
            (λ ds. ds ≡ paired (drop (filled (take self.old.commit self.old.entries)) slots.now)
            (contents (drop self.old.commit (take index self.old.entries)))) }
    {
        let mut fresh = Seq::new(alloc);
        'up: while self.commit < index {
            self.pass(slots, &mut fresh)?;
        }
        Ok(fresh)
    }
}
