//! The signatures that a key made, in a bounded memory. A node that recovers signs the same statements with the same
//! leaves again, and a node's signatures are checked by others that share its directory. Each signature is computed
//! once; it is then found by its leaf and all bytes of its statement.

ghost use Rattle.std.specs.Prelude.{◌≡◌, ◌^◌, ◌<◌, ◌≤◌, IfSome, IsSome, IsTrue};
ghost use Rattle.iss_keys.specs.Levels.{root_of};
ghost use Rattle.iss_keys.specs.Signatures.{signature_of, Verifies};
ghost use Rattle.iss_keys.specs.Internal.Remembered.{IsMade};

use crate::comparing::same_bytes;
use crate::heights::Height;
use crate::places::fill_places;
use iss_base::heights::digests_of_height;
use std::alloc::Global;
use std::cell::RefCell;
use std::marker::Model;

// The memory in bytes that the signatures of some keys may take together.
const MEMORY: usize = 32 * 1024 * 1024;

// Signatures of longer statements (in bytes) are not remembered, so that the memory is bounded.
const LONGEST_STATEMENT: usize = 1024;

// What an entry takes at most besides its statement and its signature, in bytes.
const ENTRY: usize = 256;

/// How many signatures each of `keys` keys of this height may remember.
pub(crate) fn signatures_each(keys: u32, height: u8) -> usize {
    let signature = 5 + 32 * digests_of_height(height);
    let keys = (keys as usize).max(1);
    MEMORY / (ENTRY + LONGEST_STATEMENT + signature) / keys
}

// The leaf's number in a signature. It is 0 if the signature is too short.
fn leaf_in(signature: &[u8]) -> u32 {
    if signature.len() < 5 {
        return 0;
    }
    u32::from_be_bytes([signature[1], signature[2], signature[3], signature[4]])
}

// A signature, with what it signs, its key and its leaf.
#[derive(Drop)]
struct Remembered {
    secret: [u8; 32],
    height: u8,
    leaf: u32,
    statement: Vec<u8>,
    signature: Vec<u8>,
}

impl Model for Remembered {
    ghost use Rattle.iss_keys.specs.Internal.Remembered.{IsMade, Signed};

    ghost Value = { Signed };

    ghost view = { λ r. record { secret = r.secret; height = r.height; leaf = r.leaf; statement = r.statement.items } };

    ghost invariant = { λ r. IsMade r.secret r.height r.leaf r.statement.items r.signature.items };
}

impl Remembered {
    // The signature, if this entry is for the same key, leaf and statement.
    // rule: Signatures: A remembered answer is found by all bytes of what was asked, never by a part
    fn signature(
        &self,
        secret: &[u8; 32],
        height: u8,
        leaf: u32,
        statement: &[u8],
    ) -> Option<&Vec<u8>>
        ensures right { IfSome result (λ sig. IsMade secret.now height leaf statement.now sig.now.items) }
        ensures found { self.now
            ≡ record { secret = secret.now; height = height; leaf = leaf; statement = statement.now }
            → IsSome result }
    {
        if self.leaf == leaf
            && self.height == height
            && self.secret == *secret
            && self.statement.as_slice() == statement
        {
            Some(&self.signature)
        } else {
            None
        }
    }
}

/// The signatures that a key made, by leaf. It allocates nothing before the first one. If it is out of memory, a
/// signature is not remembered.
#[derive(Drop)]
pub struct Signatures {
    secret: [u8; 32],
    height: Height,
    most: usize,
    places: RefCell<Vec<Option<Remembered>>>,
}

impl Model for Signatures {
    ghost use Rattle.iss_keys.specs.Levels.{KeySeed};

    ghost Value = { KeySeed };

    ghost view = { λ s. record { secret = s.secret; height = s.height.levels } };
}

impl Signatures {
    /// No signatures of a key. At most `most` are remembered.
    pub(crate) fn new(alloc: Global, secret: [u8; 32], height: Height, most: usize) -> Signatures
        ensures { result ≡ record { secret = secret; height = height.levels } }
    {
        Signatures {
            secret,
            height,
            most,
            places: RefCell::new(Vec::new(alloc)),
        }
    }

    // The place of a leaf's signature. Leaves of one place replace each other.
    fn place_of(&self, leaf: u32) -> usize
        ensures { result ≤ leaf }
    {
        let leaf = leaf as usize;
        leaf % self.most.max(1)
    }

    /// The signature of a statement with a leaf, if it is remembered.
    pub(crate) fn recall(&self, leaf: u32, statement: &[u8]) -> Option<Vec<u8>>
        ensures { IfSome result
            (λ sig. sig.items ≡ signature_of self.now.secret self.now.height leaf statement.now) }
    {
        let Ok(places) = self.places.try_borrow() else {
            return None;
        };
        let Some(Some(entry)) = places.get(self.place_of(leaf)) else {
            return None;
        };
        let signature = entry.signature(&self.secret, self.height.levels, leaf, statement)?;
        match signature.clone() {
            Ok(signature) => Some(signature),
            Err(_) => None,
        }
    }

    /// Whether this is a remembered signature of a statement.
    pub(crate) fn has(&self, statement: &[u8], signature: &[u8]) -> bool
        ensures { IsTrue result →
            Verifies (root_of self.now.secret self.now.height) self.now.height statement.now signature.now }
    {
        let Ok(places) = self.places.try_borrow() else {
            return false;
        };
        let leaf = leaf_in(signature);
        let Some(Some(entry)) = places.get(self.place_of(leaf)) else {
            return false;
        };
        match entry.signature(&self.secret, self.height.levels, leaf, statement) {
            Some(known) => same_bytes(known, signature),
            None => false,
        }
    }

    /// Remembers a signature. It replaces an older one in its place.
    pub(crate) fn remember(&self, leaf: u32, statement: &[u8], signature: &[u8])
        requires { IsMade self.now.secret self.now.height leaf statement.now signature.now }
    {
        if self.most == 0 || statement.len() > LONGEST_STATEMENT {
            return;
        }
        let Ok(mut places) = self.places.try_borrow_mut() else {
            return;
        };
        let alloc = *places.allocator();
        let Ok(statement) = statement.to_vec(alloc) else {
            return;
        };
        let Ok(signature) = signature.to_vec(alloc) else {
            return;
        };
        let entry = Remembered {
            secret: self.secret,
            height: self.height.levels,
            leaf,
            statement,
            signature,
        };
        let place = self.place_of(leaf);
        let _ = fill_places(&mut places, place + 1);
        if place < places.len() {
            places[place] = Some(entry);
        }
    }
}
