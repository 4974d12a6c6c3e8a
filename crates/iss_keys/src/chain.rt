//! The 67 hash chains of a leaf, and the leaf's value, computed from the secret or from a signature.

ghost use Rattle.std.specs.Prelude.{◌≡◌, ◌+◌, ◌-◌, ◌≤◌, [], ◌∷◌, ◌++◌, length, take, drop, OnOk};
ghost use Rattle.std.specs.Int.{w16, w32, to_be_bytes};
ghost use Rattle.iss_keys.specs.Pieces.{join_below};
ghost use Rattle.iss_keys.specs.Chains.{chain_start, chain_step, steps, leaf_of_ends, leaf_value};
ghost use Rattle.iss_keys.specs.Signatures.{end_from, signed_value};

use crate::digits::{checksum_of, digit_of};
use crate::marks::{CHAIN_START, CHAIN_STEP, LEAF};
use sha2::{Digest, Sha256};
use std::alloc::AllocError;

const CHAINS: u16 = 67;

// The start of a chain.
fn start_of_chain(secret: &[u8; 32], leaf: u32, chain: u16) -> [u8; 32]
    ensures { result ≡ chain_start secret.now leaf chain }
{
    let mut hasher = Sha256::new();
    hasher.update([CHAIN_START]);
    hasher.update(secret);
    hasher.update(leaf.to_be_bytes());
    hasher.update(chain.to_be_bytes());
    hasher.finalize()
}

// The string hashed at a step of a chain. It is laid out in one buffer, since hashing it in pieces would cost a sixth
// more. These steps are nearly all the cost of a key.
#[inline(always)]
fn message_of_step(leaf: u32, chain: u16, step: u8, x: &[u8; 32]) -> [u8; 40]
    ensures { result ≡ 0x11 ∷ to_be_bytes w32 leaf ++ to_be_bytes w16 chain ++ step ∷ [] ++ x.now }
{
    let [q0, q1, q2, q3] = leaf.to_be_bytes();
    let [i0, i1] = chain.to_be_bytes();
    let mut message = [0u8; 40];
    message[..8].copy_from_slice(&[CHAIN_STEP, q0, q1, q2, q3, i0, i1, step]);
    message[8..].copy_from_slice(x);
    message
}

// One step along a chain.
// rule: Signatures: A step of a hash chain hashes its leaf, chain and step with the value before
fn step_of_chain(leaf: u32, chain: u16, step: u8, x: [u8; 32]) -> [u8; 32]
    ensures { result ≡ chain_step leaf chain step x }
{
    Sha256::digest(message_of_step(leaf, chain, step, &x))
}

// The steps from `first` up to, but not including, `end`.
#[tactic(auto, using(crate::proofs::ChainLemmas::steps_more, crate::proofs::ChainLemmas::steps_none))]
fn steps_of_chain(leaf: u32, chain: u16, first: u8, end: u8, start: [u8; 32]) -> [u8; 32]
    ensures { result ≡ steps leaf chain first (end - first) start }
{
    let mut x = start;
    'steps: for step in first..end {
        let next = step_of_chain(leaf, chain, step, x);
        x = next;
    }
    x
}

/// The value of a leaf.
pub fn value_of_leaf(secret: &[u8; 32], leaf: u32) -> [u8; 32]
    ensures { result ≡ leaf_value secret.now leaf }
{
    let mut hasher = Sha256::new();
    hasher.update([LEAF]);
    hasher.update(leaf.to_be_bytes());
    'chains: for i in 0..CHAINS {
        let start = start_of_chain(secret, leaf, i);
        let end = steps_of_chain(leaf, i, 0, 15, start);
        hasher.update(end);
    }
    hasher.finalize()
}

/// Appends the value of each chain that a signature of `digest` reveals.
pub fn write_values(
    secret: &[u8; 32],
    leaf: u32,
    digest: &[u8; 32],
    out: &mut Vec<u8>,
) -> Result<(), AllocError>
    ensures { OnOk result (out.new.items ≡ out.old.items ++ join_below (signed_value secret.now leaf digest.now) 67) }
{
    let sum = checksum_of(digest);
    'chains: for i in 0..CHAINS {
        let digit = digit_of(digest, sum, i);
        let start = start_of_chain(secret, leaf, i);
        let value = steps_of_chain(leaf, i, 0, digit, start);
        out.extend_from_slice(&value)?;
    }
    Ok(())
}

/// The 32 bytes of `bytes` from `at` on.
pub fn piece_at(bytes: &[u8], at: usize) -> [u8; 32]
    requires { at + 32 ≤ length bytes.now }
    ensures { result ≡ take 32 (drop at bytes.now) }
{
    let mut piece = [0u8; 32];
    piece.copy_from_slice(&bytes[at..at + 32]);
    piece
}

/// The value of a leaf, from the chain values in a signature of `digest`.
#[tactic(auto, using(crate::proofs::ChainLemmas::ends_more, crate::proofs::ChainLemmas::join_below_none))]
pub fn leaf_from_part(leaf: u32, digest: &[u8; 32], part: &[u8]) -> [u8; 32]
    requires { 2144 ≤ length part.now }
    ensures { result ≡ leaf_of_ends leaf (end_from leaf digest.now part.now) }
{
    let sum = checksum_of(digest);
    let mut hasher = Sha256::new();
    hasher.update([LEAF]);
    hasher.update(leaf.to_be_bytes());
    'chains: for i in 0..CHAINS {
        let digit = digit_of(digest, sum, i);
        let value = piece_at(part, 32 * i as usize);
        let end = steps_of_chain(leaf, i, digit, 15, value);
        hasher.update(end);
    }
    hasher.finalize()
}
