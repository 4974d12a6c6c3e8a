//! Keys, which sign with one leaf after another.

ghost use Rattle.std.specs.Prelude.{◌≡◌, ◌↔◌, ◌+◌, ◌^◌, ◌<◌, ◌≤◌, IfOk, OnOk, OnErr, Err};
ghost use Rattle.iss_base.specs.Heights.{IsHeight};
ghost use Rattle.iss_keys.specs.Levels.{root_of};
ghost use Rattle.iss_keys.specs.Signatures.{leaf_number, signature_of, Verifies};
ghost use Rattle.iss_keys.specs.KeyStates.{KeyState, IsKey, left_of, public_of};

use crate::heights::Height;
use crate::held::HeldTrees;
use crate::levels::KeyTrees;
use crate::verification::PublicKey;
use std::alloc::{AllocError, AllocFailed, Global};
use std::marker::Model;

/// Out of memory.
#[derive(Clone, Copy, Debug, PartialEq, Eq)]
pub struct NoMemory;

impl From<AllocError> for NoMemory {
    fn from(_: AllocError) -> NoMemory {
        NoMemory
    }
}

impl<T: Drop> From<AllocFailed<T>> for NoMemory {
    fn from(_: AllocFailed<T>) -> NoMemory {
        NoMemory
    }
}

/// Why a key did not sign.
#[derive(Clone, Copy, Debug, PartialEq, Eq)]
pub enum SignError {
    /// All leaves are used.
    Spent,
    /// Out of memory.
    NoMemory,
}

impl From<NoMemory> for SignError {
    ghost use Rattle.iss_keys.specs.declared.signing.SignError.TheVariants.{NoMemory};

    ghost from_gives = { λ _ e. e ≡ NoMemory };

    fn from(_: NoMemory) -> SignError {
        SignError::NoMemory
    }
}

/// A key: a secret, the trees over its leaves, and how many leaves are used. A tree is computed when it is first
/// needed, and takes 64 bytes of memory a leaf. Above height 12 there are two at a time, of 64 KB at most each.
#[derive(Drop)]
pub struct Keys {
    trees: HeldTrees,
    used: u32,
}

impl Model for Keys {
    ghost Value = { KeyState };

    ghost view = { λ k. record { secret = k.trees.secret; height = k.trees.height; used = k.used } };

    ghost invariant = { λ k. IsKey k.trees.height k.used };
}

impl Keys {
    /// The key of a secret with no leaf used. The first signature or call of `public` computes its only or its top
    /// tree, by 1,072 small hashes a leaf. With two levels a signature computes its bottom tree too, unless the last
    /// one did.
    pub fn make(alloc: Global, secret: [u8; 32], height: u8) -> Result<Keys, NoMemory>
        requires height { IsHeight height }
        ensures { IfOk result (λ keys. keys ≡ record { secret = secret; height = height; used = 0 }) }
    {
        Keys::make_at(alloc, secret, height, 0)
    }

    /// The key of a secret. The leaves below `next` are used.
    pub fn make_at(alloc: Global, secret: [u8; 32], height: u8, next: u32) -> Result<Keys, NoMemory>
        requires height { IsHeight height }
        requires next { next ≤ 2 ^ height }
        ensures { IfOk result (λ keys. keys ≡ record { secret = secret; height = height; used = next }) }
    {
        let height = Height { levels: height };
        Ok(Keys {
            trees: HeldTrees::own(KeyTrees::new(alloc, secret, height, 0)),
            used: next,
        })
    }

    /// The key with these trees. The leaves below `next` are used.
    pub(crate) fn of(trees: HeldTrees, next: u32) -> Keys
        requires { next ≤ 2 ^ trees.height }
        ensures { result ≡ record { secret = trees.secret; height = trees.height; used = next } }
    {
        let _height = trees.trees().height();
        Keys { trees, used: next }
    }

    /// How many leaves are left, which is how many times `sign` can succeed.
    pub fn left(&self) -> u32
        ensures value { result ≡ left_of self.now }
        ensures whole { result + self.now.used ≡ 2 ^ self.now.height }
    {
        (1 << self.trees.trees().height().levels) - self.used
    }

    /// The public key.
    pub fn public(&self) -> PublicKey
        ensures { result ≡ public_of self.now }
    {
        let trees = self.trees.trees();
        PublicKey::from_parts(trees.root(), trees.height())
    }

    /// Signs with a leaf of the caller's choice, and counts no leaf as used. No two statements may be signed with one
    /// leaf. With two levels the bottom tree in memory may be replaced by the leaf's.
    pub fn sign_at(&mut self, leaf: u32, statement: &[u8]) -> Result<Vec<u8>, NoMemory>
        requires { leaf < 2 ^ self.old.height }
        ensures exact { IfOk result
            (λ sig. sig.items ≡ signature_of self.old.secret self.old.height leaf statement.now) }
        ensures verifies { IfOk result
            (λ sig. Verifies (root_of self.old.secret self.old.height) self.old.height statement.now sig.items) }
        ensures leaf { IfOk result (λ sig. leaf_number sig.items ≡ leaf) }
        ensures same { self.new ≡ self.old }
    {
        self.trees.trees().sign(leaf, statement)
    }

    /// Signs with the least unused leaf, which is used from then on. After either error the key is unchanged.
    // rule: Signatures: A key signs with its least unused leaf
    // rule: Signatures: A node signs at most one statement with each leaf
    pub fn sign(&mut self, statement: &[u8]) -> Result<Vec<u8>, SignError>
        ensures exact { IfOk result
            (λ sig. sig.items ≡ signature_of self.old.secret self.old.height self.old.used statement.now) }
        ensures verifies { IfOk result
            (λ sig. Verifies (root_of self.old.secret self.old.height) self.old.height statement.now sig.items) }
        ensures leaf { IfOk result (λ sig. leaf_number sig.items ≡ self.old.used) }
        ensures used { OnOk result (self.new ≡ record self.old { used = self.old.used + 1 }) }
        ensures left { OnOk result (left_of self.new + 1 ≡ left_of self.old) }
        ensures spent { (result ≡ Err SignError.Spent) ↔ (left_of self.old ≡ 0) }
        ensures err { OnErr result (self.new ≡ self.old) }
    {
        if self.left() == 0 {
            return Err(SignError::Spent);
        }
        let signature = self.sign_at(self.used, statement)?;
        self.used += 1;
        Ok(signature)
    }
}
