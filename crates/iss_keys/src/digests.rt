//! A cache of digests. A value is hashed by several parts of a node on its way into a log. The digest of a long string
//! is computed once, and then found by all bytes of the string.

ghost use Rattle.std.specs.Prelude.{◌≡◌, ◌<◌, ◌*◌, ℕ, List, slice_get, IfOk, IfSome, IsSome};
ghost use Rattle.sha2.specs.Sha256.{sha256};

use crate::places::{SET, fill_places, hash_on, put_first, word_at};
use sha2::{Digest, Sha256};
use std::alloc::{AllocError, Global};
use std::cell::RefCell;
use std::marker::Model;

// The number of sets of the cache.
const SETS: usize = 32;

// Hashing a shorter string is about as fast as finding its digest.
const SHORTEST: usize = 512;

// Digests of longer strings are not cached, so that the memory is bounded.
const LONGEST: usize = 100_000;

// A string, with its digest.
#[derive(Drop)]
struct Digested {
    string: Vec<u8>,
    digest: [u8; 32],
}

impl Model for Digested {
    ghost Value = { List ℕ };

    ghost view = { λ d. d.string.items };

    ghost invariant = { λ d. d.digest ≡ sha256 d.string.items };
}

impl Digested {
    // The string and its digest, as an entry of the cache.
    fn to(alloc: Global, string: &[u8], digest: &[u8; 32]) -> Result<Digested, AllocError>
        requires { digest.now ≡ sha256 string.now }
        ensures { IfOk result (λ d. d ≡ string.now) }
    {
        let string = string.to_vec(alloc)?;
        Ok(Digested {
            string,
            digest: *digest,
        })
    }

    // The digest, if this entry is for the same string.
    fn digest(&self, string: &[u8]) -> Option<[u8; 32]>
        ensures right { IfSome result (λ digest. digest ≡ sha256 string.now) }
        ensures found { self.now ≡ string.now → IsSome result }
    {
        if self.string.as_slice() == string {
            Some(self.digest)
        } else {
            None
        }
    }
}

// Where the set of a string begins, a function of some of its bytes. Strings of one set replace each other.
fn set_of(string: &[u8]) -> usize
    ensures { result < 4 * 32 }
{
    let step = string.len() / 8;
    let mut hash = 0;
    for i in 0..8usize {
        hash = hash_on(hash, word_at(string, i * step));
    }
    hash_on(hash, string.len() as u64) as usize % SETS * SET
}

// The digest of a string, if it is among these.
fn find_digest(digests: &[Option<Digested>], string: &[u8]) -> Option<[u8; 32]>
    ensures right { IfSome result (λ digest. digest ≡ sha256 string.now) }
    ensures found { (i : ℕ) → slice_get digests.now i ≡ Some (Some string.now) → IsSome result }
{
    'places: for place in digests {
        if let Some(digested) = place {
            let digest = digested.digest(string);
            if digest.is_some() {
                return digest;
            }
        }
    }
    None
}

/// The cache. It allocates nothing before the first digest. If it is out of memory, a digest is not cached.
#[derive(Drop)]
pub struct Digests {
    alloc: Global,
    places: RefCell<Vec<Option<Digested>>>,
}

impl Digests {
    /// An empty cache.
    pub(crate) fn new(alloc: Global) -> Digests {
        Digests {
            alloc,
            places: RefCell::new(Vec::new(alloc)),
        }
    }

    // The digest of a string, if it is cached.
    fn recall(&self, string: &[u8]) -> Option<[u8; 32]>
        ensures { IfSome result (λ digest. digest ≡ sha256 string.now) }
    {
        let Ok(places) = self.places.try_borrow() else {
            return None;
        };
        let set = set_of(string);
        match places.get(set..set + SET) {
            Some(digests) => find_digest(digests, string),
            None => None,
        }
    }

    // Caches a digest. It replaces the oldest of its set.
    fn remember(&self, digested: Digested) {
        let Ok(mut places) = self.places.try_borrow_mut() else {
            return;
        };
        let _ = fill_places(&mut places, SETS * SET);
        let set = set_of(digested.string.as_slice());
        if set + SET <= places.len() {
            put_first(&mut places[set..set + SET], digested);
        }
    }

    /// The SHA-256 digest of a string: from the cache, or computed and then cached.
    // rule: Signatures: A remembered answer is found by all bytes of what was asked, never by a part
    pub fn digest(&self, string: &[u8]) -> [u8; 32]
        ensures { result ≡ sha256 string.now }
    {
        if string.len() < SHORTEST || string.len() > LONGEST {
            return Sha256::digest(string);
        }
        if let Some(digest) = self.recall(string) {
            return digest;
        }
        let digest = Sha256::digest(string);
        if let Ok(digested) = Digested::to(self.alloc, string, &digest) {
            self.remember(digested);
        }
        digest
    }
}
