//! A store of keys and values, the state machine on the log.
ghost use Rattle.std.specs.Prelude.{◌≡◌, ◌∷◌, ℕ, List, [], IfOk, OnOk, OnErr, Some, None, option_copied, if◌then◌else◌};
ghost use Rattle.std.specs.Str.{bytes_eq};
ghost use Rattle.iss_reply.specs.Answers.{answer_for, answer_to, left_under, or_before};
ghost use Rattle.iss_reply.specs.Commands.{command_of};
ghost use Rattle.iss_reply.specs.Internal.Held.{held_in};

use crate::commands::{Action, Command, command_of};
use iss_request::{Bytes, NoMemory};
use std::alloc::Global;
use std::collections::HashMap;
use std::marker::Model;

// The first byte of an answer: nothing, a value follows, or the payload was malformed.
const NOTHING: u8 = 0;

const VALUE: u8 = 1;

const MALFORMED: u8 = 2;

/// A store of keys and values. Contracts see its keys with their values.
#[derive(Drop)]
pub struct Store {
    alloc: Global,
    values: HashMap<Vec<u8>, Bytes>,
}

impl Model for Store {
    ghost use Rattle.std.specs.Prelude.{ℕ, List};
    ghost use Rattle.iss_reply.specs.Internal.Held.{stored};

    ghost Value = { List (List ℕ × List ℕ) };

    ghost view = { λ s. stored s.values.entries };
}

impl Store {
    /// The empty store.
    pub fn new(alloc: Global) -> Store
        ensures { result ≡ [] }
    {
        Store {
            alloc,
            values: HashMap::new(alloc),
        }
    }

    /// Applies a payload, and gives its answer: what its key held before. On out of memory nothing changes.
    // rule: Replies: A request is answered with what its key held before it
    pub fn apply(&mut self, payload: &[u8]) -> Result<Bytes, NoMemory>
        ensures answer { IfOk result (λ answer. answer ≡ answer_to (held_in self.old) payload.now) }
        ensures held { OnOk result ((key : List ℕ) →
            held_in self.new key ≡ or_before (held_in self.old key) (left_under key (command_of payload.now))) }
        ensures err { OnErr result (self.new ≡ self.old) }
    {
        let answer = self.answer(payload)?;
        self.write(payload)?;
        Ok(answer)
    }

    /// The answer to a payload, which is not applied.
    pub fn answer(&self, payload: &[u8]) -> Result<Bytes, NoMemory>
        ensures { IfOk result (λ answer. answer ≡ answer_to (held_in self.now) payload.now) }
    {
        match command_of(payload) {
            None => malformed(self.alloc),
            Some(command) => answer_for(self.alloc, self.value_of(command.key)),
        }
    }

    /// Writes what a payload puts or deletes. On out of memory nothing changes.
    // rule: Replies: A key holds what the last put or delete of it among smaller numbers left
    pub fn write(&mut self, payload: &[u8]) -> Result<(), NoMemory>
        ensures ok { OnOk result ((key : List ℕ) →
            held_in self.new key ≡ or_before (held_in self.old key) (left_under key (command_of payload.now))) }
        ensures err { OnErr result (self.new ≡ self.old) }
    {
        let Some(command) = command_of(payload) else {
            return Ok(());
        };
        match command.action {
            Action::Get => {}
            Action::Put => self.put(command.key, command.value)?,
            Action::Delete => self.delete(command.key),
        }
        Ok(())
    }

    // What a key holds.
    fn value_of(&self, key: &[u8]) -> Option<&Bytes>
        ensures { option_copied result ≡ held_in self.now key.now }
    {
        match self.values.get(key) {
            Some(value) => Some(value),
            None => None,
        }
    }

    // Puts a value under a key.
    fn put(&mut self, key: &[u8], value: &[u8]) -> Result<(), NoMemory>
        ensures ok { OnOk result ((k : List ℕ) →
            held_in self.new k ≡ (if bytes_eq key.now k then Some value.now else held_in self.old k)) }
        ensures err { OnErr result (self.new ≡ self.old) }
    {
        let key = key.to_vec(self.alloc)?;
        let value = value.to_vec(self.alloc)?;
        let _before = self.values.insert(key, Bytes::of(value))?;
        Ok(())
    }

    // Removes what a key holds.
    fn delete(&mut self, key: &[u8])
        ensures { (k : List ℕ) →
            held_in self.new k ≡ (if bytes_eq key.now k then None else held_in self.old k) }
    {
        let _before = self.values.remove(key);
    }
}

// The answer to a malformed payload.
fn malformed(alloc: Global) -> Result<Bytes, NoMemory>
    ensures { IfOk result (λ answer. answer ≡ 2 ∷ []) }
{
    let mut answer = Vec::new(alloc);
    answer.push(MALFORMED)?;
    Ok(Bytes::of(answer))
}

// The answer to a command whose key holds this.
fn answer_for(alloc: Global, held: Option<&Bytes>) -> Result<Bytes, NoMemory>
    ensures { IfOk result (λ answer. answer ≡ answer_for (option_copied held.entry)) }
{
    let mut answer = Vec::new(alloc);
    match held {
        None => answer.push(NOTHING)?,
        Some(value) => {
            answer.push(VALUE)?;
            answer.extend_from_slice(value.as_slice())?;
        }
    }
    Ok(Bytes::of(answer))
}
