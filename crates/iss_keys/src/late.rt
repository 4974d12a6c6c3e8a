//! Trees that are computed when they are first needed, and then kept. All owners of a shared tree see what was
//! computed.

ghost use Rattle.std.specs.Prelude.{◌≡◌, IfOk, IfSome};
ghost use Rattle.iss_keys.specs.Trees.{tree_root, KeyTree};

use crate::heights::TreeHeight;
use crate::made::MadeTree;
use crate::signing::NoMemory;
use crate::tree::root_of_secret;
use std::alloc::Global;
use std::cell::OnceCell;
use std::marker::Model;

// A computed root, with the secret and height of its tree.
#[derive(Clone, Copy)]
struct MadeRoot {
    secret: [u8; 32],
    height: u8,
    root: [u8; 32],
    ghost is_own: { root ≡ tree_root secret height },
}

// Computes a root without its tree.
fn make_root(secret: &[u8; 32], height: TreeHeight) -> MadeRoot
    ensures secret { result.secret ≡ secret.now }
    ensures height { result.height ≡ height.levels }
{
    let root = root_of_secret(secret, height);
    MadeRoot {
        secret: *secret,
        height: height.levels,
        root,
    }
}

// The root in a cell, if it is the one asked for.
fn root_in(cell: &OnceCell<MadeRoot>, secret: &[u8; 32], height: u8) -> Option<[u8; 32]>
    ensures { IfSome result (λ root. root ≡ tree_root secret.now height) }
{
    let made = *cell.get()?;
    if made.secret == *secret && made.height == height {
        Some(made.root)
    } else {
        None
    }
}

/// The tree over a secret, computed when it is first needed. If there is no memory for it, only its root is computed
/// and kept.
#[derive(Drop)]
pub struct LateTree {
    alloc: Global,
    secret: [u8; 32],
    height: TreeHeight,
    tree: OnceCell<MadeTree>,
    root: OnceCell<MadeRoot>,
}

impl Model for LateTree {
    ghost use Rattle.iss_keys.specs.Trees.{KeyTree};

    ghost Value = { KeyTree };

    ghost view = { λ t. record { secret = t.secret; height = t.height.levels } };
}

impl LateTree {
    /// A tree of which nothing is computed yet.
    pub fn new(alloc: Global, secret: [u8; 32], height: TreeHeight) -> LateTree
        ensures { result ≡ record { secret = secret; height = height.levels } }
    {
        LateTree {
            alloc,
            secret,
            height,
            tree: OnceCell::new(),
            root: OnceCell::new(),
        }
    }

    /// The allocator of its memory.
    pub(crate) fn alloc(&self) -> Global {
        self.alloc
    }

    // The tree, if it is computed.
    fn made(&self) -> Option<&MadeTree>
        ensures { IfSome result (λ t. t.now ≡ self.now) }
    {
        match self.tree.get() {
            Some(made) => made.same(&self.secret, self.height.levels),
            None => None,
        }
    }

    /// The tree, which is computed if it is not yet there.
    pub fn tree(&self) -> Result<&MadeTree, NoMemory>
        ensures { IfOk result (λ t. t.now ≡ self.now) }
    {
        if let Some(made) = self.made() {
            return Ok(made);
        }
        let made = MadeTree::make(self.alloc, &self.secret, self.height)?;
        let _ = self.tree.set(made);
        match self.made() {
            Some(made) => Ok(made),
            None => Err(NoMemory),
        }
    }

    // The root from its cell, or computed without the tree and then put there.
    fn lone_root(&self) -> [u8; 32]
        ensures { result ≡ tree_root self.now.secret self.now.height }
    {
        let made = make_root(&self.secret, self.height);
        let _ = self.root.set(made);
        made.root
    }

    /// The root. If there is memory, the whole tree is computed for it, since a key that is needed once is needed
    /// again.
    pub fn root(&self) -> [u8; 32]
        ensures { result ≡ tree_root self.now.secret self.now.height }
    {
        if let Some(root) = root_in(&self.root, &self.secret, self.height.levels) {
            return root;
        }
        match self.tree() {
            Ok(made) => made.root(),
            Err(NoMemory) => self.lone_root(),
        }
    }
}
