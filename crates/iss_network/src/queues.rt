//! The numbers of the packets for one core. Packets that stopped waiting are removed lazily.
ghost use Rattle.std.specs.Prelude.{◌≡◌, ◌∷◌, [], ◌++◌, false, filter, is_ok, if◌then◌else◌, slice_set};
ghost use Rattle.iss_network.specs.Kept.{is_set, cleared_flags};

use iss_request::NoMemory;
use std::alloc::Global;
use std::marker::Model;

/// Numbers of packets for one core, ascending: all that wait, and perhaps some that stopped waiting.
#[derive(Drop)]
pub struct Queue {
    numbers: Vec<u64>,
}

impl Model for Queue {
    ghost use Rattle.std.specs.Prelude.{ℕ, List};

    ghost Value = { List ℕ };

    ghost view = { λ q. q.numbers.items };
}

impl Queue {
    /// No numbers.
    pub fn new(alloc: Global) -> Queue
        ensures { result ≡ [] }
    {
        Queue {
            numbers: Vec::new(alloc),
        }
    }

    /// The numbers, borrowed.
    pub fn numbers(&self) -> &[u64]
        ensures { result.now ≡ self.now }
    {
        self.numbers.as_slice()
    }

    /// Appends a number. On out of memory nothing changes.
    pub fn push(&mut self, number: u64) -> Result<(), NoMemory>
        ensures { self.new ≡ (if is_ok result then self.old ++ number ∷ [] else self.old) }
    {
        self.numbers.push(number)?;
        Ok(())
    }

    /// Removes the numbers of packets that stopped waiting.
    pub fn prune(&mut self, waiting: &[bool])
        ensures { self.new ≡ filter (is_set waiting.now) self.old }
    {
        self.numbers.retain(
            |number: &u64| -> bool
                ensures { result ≡ is_set waiting.entry.now number.now }
            { flag_of(waiting, *number) },
        );
    }

    /// Removes all numbers, and clears the flags of their packets.
    pub fn clear(&mut self, waiting: &mut [bool])
        ensures empty { self.new ≡ [] }
        ensures flags { waiting.new ≡ cleared_flags self.old waiting.old }
    {
        for number in &self.numbers {
            lower(waiting, *number);
        }
        self.numbers.clear();
    }
}

/// Whether packet `number` was sent and waits.
pub fn flag_of(waiting: &[bool], number: u64) -> bool
    ensures { result ≡ is_set waiting.now number }
{
    match waiting.get(number as usize) {
        Some(flag) => *flag,
        None => false,
    }
}

/// Clears the flag of packet `number`, if it was sent.
pub fn lower(waiting: &mut [bool], number: u64)
    ensures { waiting.new ≡ slice_set waiting.old number false }
{
    if (number as usize) < waiting.len() {
        waiting[number as usize] = false;
    }
}
