//! The public keys of all nodes, or of all clients: given ones, or those whose secrets are functions of numbers. A key
//! of the second kind is computed when it is first needed.

ghost use Rattle.std.specs.Prelude.{◌≡◌, ℕ, List, [], ◌∷◌, ◌^◌, ◌<◌, ◌≤◌, length, map, slice_get, IfOk, IfSome, IsTrue};
ghost use Rattle.sha2.specs.Sha256.{sha256};
ghost use Rattle.iss_keys.specs.Levels.{root_of};
ghost use Rattle.iss_keys.specs.KeyStates.{PublicKeyView, public_of};
ghost use Rattle.iss_keys.specs.Directories.{VerifiesBy, public_keys_of};
ghost use Rattle.iss_keys.specs.Internal.Rings.{keys_of_ring, ring_seed};

use crate::heights::Height;
use crate::held::HeldTrees;
use crate::levels::{KeyTrees, root_of_key};
use crate::signing::{Keys, NoMemory};
use crate::verification::PublicKey;
use sha2::{Digest, Sha256};
use std::alloc::Global;
use std::marker::Model;
use std::rc::Rc;

// How many numbers there are: a number is a byte.
const NUMBERS: u32 = 256;

// The secret of a number. `kind` says whether it is a node's or a client's.
fn secret_of(kind: u8, number: u8) -> [u8; 32]
    ensures { result ≡ sha256 (kind ∷ number ∷ []) }
{
    Sha256::digest([kind, number])
}

// The trees of a number, which are shared with nobody.
fn lone_trees(alloc: Global, kind: u8, number: u8, height: Height) -> HeldTrees
    ensures { result ≡ ring_seed kind height.levels number }
{
    let secret = secret_of(kind, number);
    HeldTrees::own(KeyTrees::new(alloc, secret, height, 0))
}

// The keys with the secrets of the numbers below `count`, all of one height. There may be fewer places for trees than
// numbers. A tree without a place is computed each time.
#[derive(Drop)]
struct OwnKeys {
    kind: u8,
    count: u32,
    height: Height,
    trees: Vec<Rc<KeyTrees>>,
}

impl Model for OwnKeys {
    ghost use Rattle.std.specs.Prelude.{◌≡◌, length, map};
    ghost use Rattle.iss_keys.specs.Internal.Rings.{OwnRing};

    ghost Value = { OwnRing };

    ghost use Rattle.iss_keys.specs.Internal.Rings.{IsRing};

    ghost view = { λ k. record { kind = k.kind; count = k.count; height = k.height.levels } };

    ghost invariant = { λ k. IsRing k.kind k.height.levels (map (λ trees. trees.value) k.trees.items) };
}

impl OwnKeys {
    // With no places.
    fn alone(alloc: Global, kind: u8, count: u32, height: Height) -> OwnKeys
        ensures { result ≡ record { kind = kind; count = count; height = height.levels } }
    {
        OwnKeys {
            kind,
            count,
            height,
            trees: Vec::new(alloc),
        }
    }

    // Each key remembers at most `most` of its signatures.
    fn new(
        alloc: Global,
        kind: u8,
        count: u32,
        height: Height,
        most: usize,
    ) -> Result<OwnKeys, NoMemory>
        ensures { IfOk result (λ keys. keys ≡ record { kind = kind; count = count; height = height.levels }) }
    {
        let places = count.min(NUMBERS);
        let mut trees = Vec::with_capacity(alloc, places as usize)?;
        'numbers: for number in 0..places {
            let secret = secret_of(kind, number as u8);
            let key = Rc::new(alloc, KeyTrees::new(alloc, secret, height, most))?;
            trees.push(key)?;
        }
        Ok(OwnKeys {
            kind,
            count,
            height,
            trees,
        })
    }

    // The place for a number's trees, if there is one.
    fn place(&self, number: u8) -> Option<&Rc<KeyTrees>>
        ensures { IfSome result (λ trees. trees.now.value ≡ ring_seed self.now.kind self.now.height number) }
    {
        match self.trees.get(number as usize) {
            Some(trees) => Some(trees),
            None => None,
        }
    }

    // The public root of a number.
    fn root(&self, number: u8) -> [u8; 32]
        ensures { result ≡ root_of (sha256 (self.now.kind ∷ number ∷ [])) self.now.height }
    {
        match self.place(number) {
            Some(trees) => trees.root(),
            None => root_of_key(&secret_of(self.kind, number), self.height),
        }
    }

    // The public key of a number, if there is one.
    fn key(&self, number: u8) -> Option<PublicKey>
        ensures { result ≡ slice_get (keys_of_ring self.now) number }
    {
        if u32::from(number) >= self.count {
            return None;
        }
        Some(PublicKey::from_parts(self.root(number), self.height))
    }

    // Whether this is a remembered signature of a statement by the key of a number.
    fn has_made(&self, number: u8, statement: &[u8], signature: &[u8]) -> bool
        ensures { IsTrue result → VerifiesBy (keys_of_ring self.now) number statement.now signature.now }
    {
        if self.count <= u32::from(number) {
            return false;
        }
        match self.place(number) {
            Some(trees) => trees.has_made(statement, signature),
            None => false,
        }
    }

    // A number's trees: the shared ones if they have a place.
    fn trees(&self, alloc: Global, number: u8) -> HeldTrees
        ensures { result ≡ ring_seed self.now.kind self.now.height number }
    {
        if let Some(trees) = self.place(number) {
            if let Ok(trees) = trees.clone() {
                return HeldTrees::shared(trees);
            }
        }
        lone_trees(alloc, self.kind, number, self.height)
    }

    // A number's trees of any kind. They are shared if the kind is that of these keys.
    fn trees_of_kind(&self, alloc: Global, kind: u8, number: u8) -> HeldTrees
        ensures { result ≡ ring_seed kind self.now.height number }
    {
        if kind == self.kind {
            return self.trees(alloc, number);
        }
        lone_trees(alloc, kind, number, self.height)
    }
}

#[derive(Drop)]
enum Source {
    Given(Vec<PublicKey>),
    Own(OwnKeys),
}

/// Public keys by number.
#[derive(Drop)]
pub struct Keyring {
    source: Source,
}

impl Model for Keyring {
    ghost use Rattle.std.specs.Prelude.{List};
    ghost use Rattle.iss_keys.specs.KeyStates.{PublicKeyView};

    ghost Value = { List PublicKeyView };

    ghost use Rattle.iss_keys.specs.Internal.Sources.{keys_of};

    ghost view = { λ k. keys_of k.source };
}

impl Keyring {
    /// The public keys for the secrets of the numbers below `count`, all of one height. Each key remembers at most
    /// `most` of its signatures.
    pub fn own(
        alloc: Global,
        kind: u8,
        count: u32,
        height: Height,
        most: usize,
    ) -> Result<Keyring, NoMemory>
        ensures { IfOk result (λ ring. ring ≡ public_keys_of (λ i. sha256 (kind ∷ i ∷ [])) height.levels count) }
    {
        let keys = OwnKeys::new(alloc, kind, count, height, most)?;
        Ok(Keyring {
            source: Source::Own(keys),
        })
    }

    /// The same without memory: keys are computed again each time.
    pub fn alone(alloc: Global, kind: u8, count: u32, height: Height) -> Keyring
        ensures { result ≡ public_keys_of (λ i. sha256 (kind ∷ i ∷ [])) height.levels count }
    {
        Keyring {
            source: Source::Own(OwnKeys::alone(alloc, kind, count, height)),
        }
    }

    /// The public keys of given keys.
    pub fn given(alloc: Global, keys: &[Keys]) -> Result<Keyring, NoMemory>
        ensures { IfOk result (λ ring. ring ≡ map public_of keys.now) }
    {
        let mut publics = Vec::with_capacity(alloc, keys.len())?;
        'keys: for key in keys {
            publics.push(key.public())?;
        }
        Ok(Keyring {
            source: Source::Given(publics),
        })
    }

    /// The public key of a number, if there is one.
    pub fn key(&self, number: u8) -> Option<PublicKey>
        ensures { result ≡ slice_get self.now number }
    {
        match &self.source {
            Source::Given(keys) => keys.get(number as usize).copied(),
            Source::Own(keys) => keys.key(number),
        }
    }

    /// Whether this is a remembered signature of a statement by the key of a number.
    pub fn has_made(&self, number: u8, statement: &[u8], signature: &[u8]) -> bool
        ensures { IsTrue result → VerifiesBy self.now number statement.now signature.now }
    {
        match &self.source {
            Source::Given(_) => false,
            Source::Own(keys) => keys.has_made(number, statement, signature),
        }
    }

    /// The key with the secret of a number of this kind, and the height of the public key of this number. The leaves
    /// below `next` are used. If this public key is its own, its trees are shared.
    pub fn keys(&self, alloc: Global, kind: u8, number: u8, next: u32) -> Keys
        requires number { number < length self.now }
        requires next { IfSome (slice_get self.now number) (λ key. next ≤ 2 ^ key.height) }
        ensures { IfSome (slice_get self.now number)
            (λ key. result ≡ record { secret = sha256 (kind ∷ number ∷ []); height = key.height; used = next }) }
    {
        match &self.source {
            Source::Given(keys) => {
                let height = keys[number as usize].levels();
                Keys::of(lone_trees(alloc, kind, number, height), next)
            }
            Source::Own(keys) => Keys::of(keys.trees_of_kind(alloc, kind, number), next),
        }
    }
}
