//! Lists that public types contain.
ghost use Rattle.std.specs.Prelude.{◌≡◌, length, [], ◌∷◌, ◌++◌, OnOk, OnErr};

use crate::errors::NoMemory;
use std::alloc::Global;
use std::marker::Model;

/// A list, which contracts see as a mathematical list.
#[derive(Drop, Debug)]
pub struct Seq<T> {
    all: Vec<T>,
}

impl<T> Model for Seq<T> {
    ghost use Rattle.std.specs.Prelude.{List};

    ghost Value = { List T };

    ghost view = { λ r. r.all.items };
}

impl<T: Drop> Seq<T> {
    /// The empty list.
    pub fn new(alloc: Global) -> Seq<T>
        ensures { result ≡ [] }
    {
        Seq {
            all: Vec::new(alloc),
        }
    }

    /// The list of these elements.
    pub fn of(all: Vec<T>) -> Seq<T>
        ensures { result ≡ all.items }
    {
        Seq { all }
    }

    /// The number of elements.
    pub fn len(&self) -> usize
        ensures { result ≡ length self.now }
    {
        self.all.len()
    }

    /// The elements as a slice.
    pub fn as_slice(&self) -> &[T]
        ensures { result.now ≡ self.now }
    {
        self.all.as_slice()
    }

    /// The elements.
    pub fn into_vec(self) -> Vec<T>
        ensures { result.items ≡ self }
    {
        self.all
    }

    /// Appends an element.
    pub fn push(&mut self, thing: T) -> Result<(), NoMemory>
        ensures ok { OnOk result (self.new ≡ self.old ++ thing ∷ []) }
        ensures err { OnErr result (self.new ≡ self.old) }
    {
        self.all.push(thing)?;
        Ok(())
    }
}
