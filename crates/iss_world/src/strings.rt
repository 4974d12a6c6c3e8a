//! The strings that were hashed, to detect collisions.
ghost use Rattle.std.specs.Prelude.{◌≡◌, ◌∷◌, [], ℕ, List, Some, IfOk, IsTrue, OnOk, option_map};
ghost use Rattle.iss_base.specs.Lists.{same_bytes};
ghost use Rattle.iss_model.specs.Run.{collision_in, collision_with};
ghost use Rattle.iss_request.specs.Digest.{digest};
ghost use Rattle.iss_world.specs.Books.{AddsStrings, AreHashed, KeepsStrings, difference, string_at};
ghost use Rattle.iss_world.specs.Refines.{end_of};

use crate::ends::Evidence;
use crate::members::Members;
use crate::texts::Text;
use iss_keys::Directory;
use iss_request::{Bytes, NoMemory, Value, value_string};
use std::alloc::Global;
use std::collections::BTreeMap;
use std::marker::Model;

/// The hashed strings, by digest.
#[derive(Drop)]
pub struct Strings {
    alloc: Global,
    all: BTreeMap<[u8; 32], Text>,
}

impl Model for Strings {
    ghost use Rattle.std.specs.Prelude.{ℕ, List};

    ghost Value = { List (List ℕ × List ℕ) };

    ghost view = { λ v. v.all.entries };
}

// The SHA-256 digest of a string, which the directory caches. By convention the empty string has 32 zero bytes.
fn digest(directory: &Directory, string: &[u8]) -> [u8; 32]
    ensures { result ≡ digest string.now }
{
    if string.is_empty() {
        return [0; 32];
    }
    directory.digest(string)
}

impl Strings {
    /// Holds only the empty string. The only error is out of memory.
    pub fn new(alloc: Global) -> Result<Strings, NoMemory>
        ensures { IfOk result (λ v. AreHashed v ([] ∷ [])) }
    {
        let mut all = BTreeMap::new(alloc);
        all.insert([0; 32], Text::of_bytes(Bytes::new(alloc)))?;
        Ok(Strings { alloc, all })
    }

    // Adds a string. Returns the collision if another string has the same digest.
    fn add(&mut self, directory: &Directory, string: &Bytes) -> Result<Option<Evidence>, NoMemory>
        ensures told { IfOk result
            (λ end. (book : List (List ℕ)) → AreHashed self.old book →
            option_map end_of end ≡ collision_with string.now book) }
        ensures booked { IfOk result (AddsStrings self.old self.new (string.now ∷ [])) }
    {
        let digest = digest(directory, string.as_slice());
        if let Some(first) = self.all.get(&digest) {
            return collision(self.alloc, first, string);
        }
        self.all.insert(digest, Text::of_bytes(string.copy()?))?;
        Ok(None)
    }

    /// Adds the strings of a step, in order. Stops at the first that collides, and returns the collision.
    // rule: Evidence: Two strings of one digest end the run, and the earlier one is named first
    pub fn book(
        &mut self,
        directory: &Directory,
        strings: &[Bytes],
    ) -> Result<Option<Evidence>, NoMemory>
        ensures told { IfOk result
            (λ end. (book : List (List ℕ)) → AreHashed self.old book →
            option_map end_of end ≡ collision_in strings.now book) }
        ensures booked { IfOk result (AddsStrings self.old self.new strings.now) }
    {
        for string in strings {
            let end = self.add(directory, string)?;
            if end.is_some() {
                return Ok(end);
            }
        }
        Ok(None)
    }

    // Whether this string is here under its digest, and its bytes are kept.
    fn copies(&self, digest: [u8; 32], string: &[u8]) -> bool
        ensures { IsTrue result → string_at self.now digest ≡ Some string.now }
    {
        match self.all.get(&digest) {
            Some(text) => text.copies(string),
            None => false,
        }
    }

    // Keeps the string of a value, if its bytes are kept, as the value.
    fn share_one(&mut self, members: &Members, value: &Value) -> Result<(), NoMemory>
        ensures { OnOk result (KeepsStrings self.old self.new) }
    {
        let version = members.setup().version;
        let string = value_string(self.alloc, version, value)?;
        let digest = digest(members.directory(), string.as_slice());
        let here = self.copies(digest, string.as_slice());
        if !here {
            return Ok(());
        }
        self.all.insert(digest, Text::of_value(version, value)?)?;
        Ok(())
    }

    /// Keeps the strings of these values, if they are here, as the values. The same strings are hashed as before.
    pub fn share(&mut self, members: &Members, values: &[Value]) -> Result<(), NoMemory>
        ensures { OnOk result (KeepsStrings self.old self.new) }
    {
        for value in values {
            self.share_one(members, value)?;
        }
        Ok(())
    }
}

// Whether the strings are equal.
fn same(a: &[u8], b: &[u8]) -> bool
    ensures { result ≡ same_bytes a.now b.now }
{
    a == b
}

// The collision of two strings with one digest, if they differ.
fn collision(alloc: Global, first: &Text, second: &Bytes) -> Result<Option<Evidence>, NoMemory>
    ensures { IfOk result (λ end. option_map end_of end ≡ difference first.now second.now) }
{
    let known = first.bytes(alloc)?;
    if same(known.as_slice(), second.as_slice()) {
        return Ok(None);
    }
    Ok(Some(Evidence::Collision {
        first: known.copy()?,
        second: second.copy()?,
    }))
}
