//! Public keys, and whether a signature is valid.

ghost use Rattle.std.specs.Prelude.{◌≡◌, ◌↔◌, ◌+◌, ◌*◌, ◌/◌, ◌^◌, ◌≤◌, length, drop, IsTrue};
ghost use Rattle.iss_base.specs.Heights.{IsHeight, digests_of_height, signature_length};
ghost use Rattle.iss_keys.specs.Signatures.{bottom_root, part_root, root_of_parts, top_root, Verifies};
ghost use Rattle.iss_keys.specs.KeyStates.{PublicKeyView};

use crate::chain::leaf_from_part;
use crate::digits::{digest_of_root, digest_of_statement};
use crate::heights::{Height, TreeHeight};
use crate::levels::BOTTOM_LEAVES;
use crate::tree::root_from_leaf;
use iss_base::heights::{digests_of_height, has_two_levels};
use std::marker::Model;

/// A public key: the root of a key's only or top tree, and the key's height.
#[derive(Clone, Copy)]
pub struct PublicKey {
    root: [u8; 32],
    height: u8,
}

impl Model for PublicKey {
    ghost use Rattle.iss_base.specs.Heights.{IsHeight};
    ghost use Rattle.iss_keys.specs.KeyStates.{PublicKeyView};

    ghost Value = { PublicKeyView };

    ghost view = { λ k. record { root = k.root; height = k.height } };

    ghost invariant = { λ k. IsHeight k.height };

    ghost inverse = { λ k. record { root = k.root; height = k.height } };
}

impl PublicKey {
    // The key with this root and height.
    pub(crate) fn from_parts(root: [u8; 32], height: Height) -> PublicKey
        ensures { result ≡ record { root = root; height = height.levels } }
    {
        PublicKey {
            root,
            height: height.levels,
        }
    }

    /// The root of the only or the top tree.
    pub fn root(&self) -> [u8; 32]
        ensures { result ≡ self.now.root }
    {
        self.root
    }

    // The height, as a type with its range.
    pub(crate) fn levels(&self) -> Height
        ensures { result.levels ≡ self.now.height }
    {
        Height {
            levels: self.height,
        }
    }

    /// The height of the key, which has `2^height` leaves.
    pub fn height(&self) -> u8
        ensures { result ≡ self.now.height }
    {
        self.height
    }
}

// The length of a signature's height and leaf, and that of the part by a bottom tree.
const HEAD: usize = 5;

const BOTTOM_PART: usize = 2464;

// The bytes behind the first ones.
fn behind(bytes: &[u8], first: usize) -> &[u8]
    requires { first ≤ length bytes.now }
    ensures bytes { result.now ≡ drop first bytes.now }
    ensures size { length result.now + first ≡ length bytes.now }
{
    &bytes[first..]
}

// The root computed from the chain values and the authentication path in a part of a signature.
fn root_of_part(leaf: u32, height: TreeHeight, digest: &[u8; 32], part: &[u8]) -> [u8; 32]
    requires { 2144 + 32 * height.levels ≤ length part.now }
    ensures { result ≡ part_root leaf digest.now part.now height.levels }
{
    let value = leaf_from_part(leaf, digest, part);
    root_from_leaf(leaf, height, value, part)
}

// The root computed from both parts of a signature by a key with two levels.
fn root_of_two(leaf: u32, top: TreeHeight, statement: &[u8], parts: &[u8]) -> [u8; 32]
    requires { 4608 + 32 * top.levels ≤ length parts.now }
    ensures { result ≡ top_root (leaf / 1024) (bottom_root leaf statement.now parts.now) parts.now top.levels }
{
    let bottom = leaf / BOTTOM_LEAVES;
    let digest = digest_of_statement(statement);
    let root = root_of_part(
        leaf % BOTTOM_LEAVES,
        TreeHeight::of_bottom(),
        &digest,
        parts,
    );
    let digest = digest_of_root(bottom, &root);
    root_of_part(bottom, top, &digest, behind(parts, BOTTOM_PART))
}

// The root computed from the parts of a signature.
#[tactic(auto, unfolding(crate::specs::Signatures::root_of_parts, iss_base::specs::Heights::digests_of_height))]
fn root_of_parts(leaf: u32, height: Height, statement: &[u8], parts: &[u8]) -> [u8; 32]
    requires { length parts.now ≡ 32 * digests_of_height height.levels }
    ensures { result ≡ root_of_parts leaf statement.now parts.now height.levels }
{
    if has_two_levels(height.levels) {
        root_of_two(leaf, height.of_top(), statement, parts)
    } else {
        root_of_part(
            leaf,
            height.of_top(),
            &digest_of_statement(statement),
            parts,
        )
    }
}

/// Whether `signature` is a signature of `statement` under `key`. It allocates nothing; `signature` may be any bytes.
// rule: Signatures: A signature verifies if its chains and its path lead to the root of the key
pub fn verify(key: &PublicKey, statement: &[u8], signature: &[u8]) -> bool
    ensures { IsTrue result ↔ Verifies key.now.root key.now.height statement.now signature.now }
{
    let height = key.levels();
    if signature.len() != 5 + 32 * digests_of_height(height.levels) {
        return false;
    }
    if signature[0] != height.levels {
        return false;
    }
    let leaf = u32::from_be_bytes([signature[1], signature[2], signature[3], signature[4]]);
    if leaf >> height.levels != 0 {
        return false;
    }
    let root = root_of_parts(leaf, height, statement, behind(signature, HEAD));
    root == key.root
}
