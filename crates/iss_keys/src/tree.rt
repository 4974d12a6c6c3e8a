//! The Merkle tree over the leaves. In memory it is one array: the root at place 1, and the children of place `i` at
//! places `2 * i` and `2 * i + 1`.

ghost use Rattle.std.specs.Prelude.{◌≡◌, ◌+◌, ◌*◌, ◌^◌, ◌<◌, ◌≤◌, ◌++◌, length, IfOk, OnOk};
ghost use Rattle.iss_keys.specs.Trees.{inner, node, tree_root, beside, HasNodesFrom};
ghost use Rattle.iss_keys.specs.Signatures.{climb};

use crate::chain::{piece_at, value_of_leaf};
use crate::heights::TreeHeight;
use crate::marks::INNER_NODE;
use sha2::{Digest, Sha256};
use std::alloc::{AllocError, Global};

// The parent of two nodes.
fn inner_node(left: &[u8; 32], right: &[u8; 32]) -> [u8; 32]
    ensures { result ≡ inner left.now right.now }
{
    let mut hasher = Sha256::new();
    hasher.update([INNER_NODE]);
    hasher.update(left);
    hasher.update(right);
    hasher.finalize()
}

/// The number of leaves of a tree.
pub fn leaves_under(height: TreeHeight) -> usize
    ensures value { result ≡ 2 ^ height.levels }
    ensures low { 1 ≤ result }
    ensures high { result ≤ 4096 }
{
    1 << height.levels
}

/// Writes the tree over a secret into an array.
pub fn fill_tree(nodes: &mut [[u8; 32]], secret: &[u8; 32], height: TreeHeight)
    requires size { length nodes.old ≡ 2 ^ (height.levels + 1) }
    ensures { HasNodesFrom secret.now height.levels 1 nodes.new }
{
    let leaves = leaves_under(height);
    'leaves: for q in 0..leaves {
        nodes[leaves + q] = value_of_leaf(secret, q as u32);
    }
    'inner: for i in (1..leaves).rev() {
        nodes[i] = inner_node(&nodes[2 * i], &nodes[2 * i + 1]);
    }
}

/// The tree over a secret.
pub fn tree_of(
    alloc: Global,
    secret: &[u8; 32],
    height: TreeHeight,
) -> Result<Vec<[u8; 32]>, AllocError>
    ensures size { IfOk result (λ nodes. length nodes.items ≡ 2 ^ (height.levels + 1)) }
    ensures tree { IfOk result (λ nodes. HasNodesFrom secret.now height.levels 1 nodes.items) }
{
    let mut nodes = vec![in alloc; [0u8; 32]; 2 * leaves_under(height)]?;
    fill_tree(&mut nodes, secret, height);
    Ok(nodes)
}

// A node of the tree over a secret. It allocates nothing: at most one digest of each level is pending.
// rule: Signatures: A hash tree over the leaves gives the root that is the public key
#[tactic(auto, unfolding(crate::specs::Trees::node))]
fn node_of(secret: &[u8; 32], level: u8, place: u32) -> [u8; 32]
    requires { (place + 1) * 2 ^ level ≤ 4096 }
    ensures { result ≡ node secret.now level place }
{
    if level == 0 {
        return value_of_leaf(secret, place);
    }
    let left = node_of(secret, level - 1, 2 * place);
    let right = node_of(secret, level - 1, 2 * place + 1);
    inner_node(&left, &right)
}

/// The root of the tree over a secret, computed without the tree: by the same hashes, and without allocating.
pub fn root_of_secret(secret: &[u8; 32], height: TreeHeight) -> [u8; 32]
    ensures { result ≡ tree_root secret.now height.levels }
{
    node_of(secret, height.levels, 0)
}

/// The place of a node's sibling.
pub fn place_beside(place: usize) -> usize
    ensures { result ≡ beside place }
{
    if place % 2 == 0 { place + 1 } else { place - 1 }
}

/// Appends a node.
pub fn write_node(node: &[u8; 32], out: &mut Vec<u8>) -> Result<(), AllocError>
    ensures { OnOk result (out.new.items ≡ out.old.items ++ node.now) }
{
    out.extend_from_slice(node)?;
    Ok(())
}

/// The root over a leaf with this value, from the authentication path in a signature.
#[tactic(auto, using(crate::proofs::ChainLemmas::climb_more), unfolding(crate::specs::Signatures::climb))]
pub fn root_from_leaf(leaf: u32, height: TreeHeight, value: [u8; 32], part: &[u8]) -> [u8; 32]
    requires { 2144 + 32 * height.levels ≤ length part.now }
    ensures { result ≡ climb leaf part.now value height.levels }
{
    let mut x = value;
    'levels: for k in 0..height.levels {
        let sibling = piece_at(part, 2144 + 32 * k as usize);
        let next = if (leaf >> k) % 2 == 0 {
            inner_node(&x, &sibling)
        } else {
            inner_node(&sibling, &x)
        };
        x = next;
    }
    x
}
