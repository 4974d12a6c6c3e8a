//! A computed tree, and the parts of signatures by its leaves.

ghost use Rattle.std.specs.Prelude.{◌≡◌, ◌^◌, ◌<◌, ◌++◌, IfOk, IfSome, OnOk};
ghost use Rattle.iss_keys.specs.Trees.{tree_root, path_node, KeyTree, AreNodesOf};
ghost use Rattle.iss_keys.specs.Pieces.{join_below};
ghost use Rattle.iss_keys.specs.Signatures.{part_of};

use crate::chain::write_values;
use crate::heights::TreeHeight;
use crate::tree::{fill_tree, leaves_under, place_beside, tree_of, write_node};
use std::alloc::{AllocError, Global};
use std::marker::Model;

/// A computed tree, and its secret.
#[derive(Drop)]
pub struct MadeTree {
    secret: [u8; 32],
    height: TreeHeight,
    nodes: Vec<[u8; 32]>,
}

impl Model for MadeTree {
    ghost Value = { KeyTree };

    ghost view = { λ t. record { secret = t.secret; height = t.height.levels } };

    ghost invariant = { λ t. AreNodesOf t.secret t.height.levels t.nodes.items };
}

impl MadeTree {
    /// Computes the tree over a secret.
    pub fn make(
        alloc: Global,
        secret: &[u8; 32],
        height: TreeHeight,
    ) -> Result<MadeTree, AllocError>
        ensures { IfOk result (λ t. t ≡ record { secret = secret.now; height = height.levels }) }
    {
        let nodes = tree_of(alloc, secret, height)?;
        Ok(MadeTree {
            secret: *secret,
            height,
            nodes,
        })
    }

    /// Computes the tree over another secret in its place, unless it is that tree. It allocates nothing.
    pub fn replace(&mut self, secret: &[u8; 32])
        ensures { self.new ≡ record { secret = secret.now; height = self.old.height } }
    {
        if self.secret != *secret {
            fill_tree(&mut self.nodes, secret, self.height);
            self.secret = *secret;
        }
    }

    /// This tree, if it is the one asked for.
    pub fn same(&self, secret: &[u8; 32], height: u8) -> Option<&MadeTree>
        ensures { IfSome result (λ t. t.now ≡ record { secret = secret.now; height = height }) }
    {
        if self.secret == *secret && self.height.levels == height {
            Some(self)
        } else {
            None
        }
    }

    /// The height.
    pub fn height(&self) -> u8
        ensures { result ≡ self.now.height }
    {
        self.height.levels
    }

    /// The root.
    pub fn root(&self) -> [u8; 32]
        ensures { result ≡ tree_root self.now.secret self.now.height }
    {
        self.nodes[1]
    }

    // Appends the authentication path of a leaf.
    fn write_path(&self, leaf: u32, out: &mut Vec<u8>) -> Result<(), AllocError>
        requires { leaf < 2 ^ self.now.height }
        ensures { OnOk result
            (out.new.items ≡ out.old.items ++ join_below (path_node self.now.secret leaf) self.now.height) }
    {
        let mut place = leaves_under(self.height) + leaf as usize;
        'levels: for k in 0..self.height.levels {
            write_node(&self.nodes[place_beside(place)], out)?;
            place /= 2;
        }
        Ok(())
    }

    /// Appends the part of a signature by a leaf over a digest.
    pub fn write_part(
        &self,
        leaf: u32,
        digest: &[u8; 32],
        out: &mut Vec<u8>,
    ) -> Result<(), AllocError>
        requires { leaf < 2 ^ self.now.height }
        ensures { OnOk result
            (out.new.items ≡ out.old.items ++ part_of self.now.secret self.now.height leaf digest.now) }
    {
        write_values(&self.secret, leaf, digest, out)?;
        self.write_path(leaf, out)?;
        Ok(())
    }
}
