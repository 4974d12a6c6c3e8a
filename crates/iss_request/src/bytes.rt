//! Bytes, which contracts see as a list.
ghost use Rattle.std.specs.Prelude.{◌≡◌, ◌≤◌, ◌-◌, length, take, drop, [], IfOk};

use crate::errors::NoMemory;
use std::alloc::{AllocError, Global};
use std::marker::Model;
use std::rc::Rc;

// Where the bytes are.
#[derive(Drop, Debug)]
enum Held {
    // not shared
    Own(Vec<u8>),
    // a range of bytes that copies and other parts share
    Part {
        all: Rc<Vec<u8>>,
        from: usize,
        to: usize,
    },
}

/// Immutable bytes, which contracts see as a list. Copies may share them.
#[derive(Drop, Debug)]
pub struct Bytes {
    held: Held,
}

impl Model for Bytes {
    ghost use Rattle.std.specs.Prelude.{ℕ, List};
    ghost use Rattle.iss_request.specs.Internal.Bytes.{held_bytes};

    ghost Value = { List ℕ };

    ghost view = { λ b. held_bytes b.held };
}

impl Bytes {
    /// No bytes.
    pub fn new(alloc: Global) -> Bytes
        ensures { result ≡ [] }
    {
        Bytes {
            held: Held::Own(Vec::new(alloc)),
        }
    }

    /// These bytes. Each copy allocates its own.
    pub fn of(all: Vec<u8>) -> Bytes
        ensures { result ≡ all.items }
    {
        Bytes {
            held: Held::Own(all),
        }
    }

    /// These bytes, shared by all copies: for bytes that are read once and then used in many places.
    pub fn shared(all: Vec<u8>) -> Result<Bytes, NoMemory>
        ensures { IfOk result (λ b. b ≡ all.items) }
    {
        let alloc = *all.allocator();
        let to = all.len();
        Ok(Bytes {
            held: Held::Part {
                all: Rc::new(alloc, all)?,
                from: 0,
                to,
            },
        })
    }

    /// The bytes from one offset to another. They share memory with these if copies do.
    pub fn part(&self, from: usize, to: usize) -> Result<Bytes, NoMemory>
        requires within { to ≤ length self.now }
        requires order { from ≤ to }
        ensures { IfOk result (λ b. b ≡ take (to - from) (drop from self.now)) }
    {
        match &self.held {
            Held::Own(all) => Bytes::shared(Vec::from_slice(*all.allocator(), &all[from..to])?),
            Held::Part {
                all,
                from: first,
                ..
            } => Ok(Bytes {
                held: Held::Part {
                    all: all.clone()?,
                    from: *first + from,
                    to: *first + to,
                },
            }),
        }
    }

    /// The same bytes, shared by all copies from now on.
    pub fn into_shared(self) -> Result<Bytes, NoMemory>
        ensures { IfOk result (λ b. b ≡ self) }
    {
        match self.held {
            Held::Own(all) => Bytes::shared(all),
            held => Ok(Bytes { held }),
        }
    }

    /// The number of bytes.
    pub fn len(&self) -> usize
        ensures { result ≡ length self.now }
    {
        self.as_slice().len()
    }

    /// The bytes as a slice.
    pub fn as_slice(&self) -> &[u8]
        ensures { result.now ≡ self.now }
    {
        match &self.held {
            Held::Own(all) => all.as_slice(),
            Held::Part { all, from, to } => part_of(all, *from, *to),
        }
    }

    /// A copy.
    pub fn copy(&self) -> Result<Bytes, NoMemory>
        ensures { IfOk result (λ b. b ≡ self.now) }
    {
        Ok(self.clone()?)
    }
}

// The bytes from one offset to another, as far as there are any.
fn part_of(all: &[u8], from: usize, to: usize) -> &[u8]
    ensures { result.now ≡ drop from (take to all.now) }
{
    let to = to.min(all.len());
    &all[from.min(to)..to]
}

impl Clone for Bytes {
    ghost is_clone = { λ b copy. copy ≡ b };

    fn clone(&self) -> Result<Bytes, AllocError> {
        let held = match &self.held {
            Held::Own(all) => Held::Own(Vec::from_slice(*all.allocator(), all.as_slice())?),
            Held::Part { all, from, to } => Held::Part {
                all: all.clone()?,
                from: *from,
                to: *to,
            },
        };
        Ok(Bytes { held })
    }
}
