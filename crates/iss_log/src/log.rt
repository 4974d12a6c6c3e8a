//! The log, and the results of its calls.
ghost use Rattle.std.specs.Prelude.{◌≡◌, ◌≤◌, ◌+◌, take, ◌++◌, ◌∷◌, [], length, IfOk, IfNone, OnOk, OnErr, IsTrue, IsSome, is_some, ◌↔◌, if◌then◌else◌};
ghost use Rattle.iss_request.specs.Log.{requests, size_of};
ghost use Rattle.iss_log.specs.LogState.{empty_log, value_at, ahead_at, first_number_of, IsFill, IsAdvanced, GoesOn, IsWithout};

use iss_request::{NoMemory, Slot, Value, sum};
use std::alloc::Global;
use std::collections::BTreeMap;
use std::marker::Model;

/// The result of filling a slot.
#[derive(Clone, Copy, Debug, PartialEq, Eq)]
pub enum Fill {
    /// The slot holds the value now.
    Filled,
    /// The slot held a value already, ahead of the log.
    Already,
    /// The slot is in the log already.
    Past,
}

/// How many slots joined the log.
#[derive(Clone, Copy, Debug, PartialEq, Eq)]
pub struct Joined {
    pub slots: usize,
}

/// The longest sequence of filled slots from 0, and the slots that are filled ahead of it.
#[derive(Drop, Debug)]
pub struct Log {
    values: Vec<Value>,
    // the number of each value's first request
    firsts: Vec<u64>,
    count: u64,
    ahead: BTreeMap<u64, Value>,
}

impl Model for Log {
    ghost use Rattle.iss_log.specs.LogState.{LogState, AreNumbered};

    ghost Value = { LogState };

    ghost view = { λ l. record { entries = l.values.items; ahead = l.ahead.entries } };

    ghost invariant = { λ l. AreNumbered l.values.items l.firsts.items l.count };
}

impl Log {
    /// No slot is filled.
    pub fn new(alloc: Global) -> Log
        ensures { result ≡ empty_log }
    {
        Log {
            values: Vec::new(alloc),
            firsts: Vec::new(alloc),
            count: 0,
            ahead: BTreeMap::new(alloc),
        }
    }

    /// Puts a value in an empty slot. It joins the log at the next `advance` that reaches it. On out of memory nothing
    /// changes.
    // rule: Log: A slot is filled once
    pub fn fill(&mut self, slot: Slot, value: Value) -> Result<Fill, NoMemory>
        ensures { IsFill self.old slot.0 value self.new result }
    {
        if slot.0 < self.values.len() as u64 {
            return Ok(Fill::Past);
        }
        if self.ahead.contains_key(&slot.0) {
            return Ok(Fill::Already);
        }
        self.ahead.insert(slot.0, value)?;
        Ok(Fill::Filled)
    }

    /// Adds to the log all values that follow it without a gap. The error is out of memory, also if the requests pass
    /// 2^64 - 1. The old log stays a prefix then.
    // rule: Log: The log is the longest run of filled slots from slot 0
    pub fn advance(&mut self) -> Result<Joined, NoMemory>
        ensures ok { IfOk result (λ joined. IsAdvanced self.old self.new joined.slots) }
        ensures err { OnErr result (GoesOn self.old.entries self.new.entries) }
    {
        let before = self.values.len();
        'run: while let Some(value) = self.take_next() {
            self.join(value)?;
        }
        Ok(Joined {
            slots: self.values.len() - before,
        })
    }

    /// The values of the log in the order of slots.
    pub fn entries(&self) -> &[Value]
        ensures { result.now ≡ self.now.entries }
    {
        self.values.as_slice()
    }

    /// Whether a slot holds a value.
    pub fn filled(&self, slot: Slot) -> bool
        ensures { IsTrue result ↔ IsSome (value_at self.now slot.0) }
    {
        slot.0 < self.values.len() as u64 || self.ahead.contains_key(&slot.0)
    }

    /// The number of a slot's first request, or `None` past the log.
    // rule: Log: A request's number is the sum of earlier batch sizes plus its place; nil counts 0
    pub fn first_number(&self, slot: Slot) -> Option<u64>
        ensures { result ≡ first_number_of self.now.entries slot.0 }
    {
        if slot.0 < self.values.len() as u64 {
            Some(self.firsts[slot.0 as usize])
        } else {
            None
        }
    }

    /// The number of requests in the log.
    pub fn requests(&self) -> u64
        ensures { result ≡ requests self.now.entries }
    {
        self.count
    }

    /// Cuts the log to its first slots. All later slots become empty.
    pub fn cut(&mut self, slots: usize)
        requires { slots ≤ length self.old.entries }
        ensures { self.new ≡ record { entries = take slots self.old.entries; ahead = [] } }
    {
        if slots < self.values.len() {
            self.count = self.firsts[slots];
        }
        self.values.truncate(slots);
        self.firsts.truncate(slots);
        self.ahead.clear();
    }

    // Takes out the value ahead of the log at the next slot.
    fn take_next(&mut self) -> Option<Value>
        ensures value { result ≡ ahead_at self.old.ahead (length self.old.entries) }
        ensures entries { self.new.entries ≡ self.old.entries }
        ensures others { IsWithout self.old.ahead (length self.old.entries) self.new.ahead }
        ensures none { IfNone result (self.new ≡ self.old) }
        ensures fewer { length self.new.ahead + (if is_some result then 1 else 0) ≡ length self.old.ahead }
    {
        let next = self.values.len() as u64;
        self.ahead.remove(&next)
    }

    // Adds a value at the end of the log.
    fn join(&mut self, value: Value) -> Result<(), NoMemory>
        ensures ok { OnOk result (self.new ≡ record self.old { entries = self.old.entries ++ value ∷ [] }) }
        ensures err { OnErr result (self.new ≡ self.old) }
    {
        let count = sum(self.count, size(&value))?;
        self.firsts.reserve(1)?;
        self.values.push(value)?;
        if self.firsts.push(self.count).is_err() {
            unreachable!();
        }
        self.count = count;
        Ok(())
    }
}

// The number of requests in a value.
pub(crate) fn size(value: &Value) -> u64
    ensures { result ≡ size_of value.now }
{
    match value {
        Value::Nil => 0,
        Value::Batch(batch) => batch.len() as u64,
    }
}
