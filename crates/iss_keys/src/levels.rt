//! The trees of a key: one tree, or a top tree and a bottom tree at a time. Each is computed when it is first needed.
//! The bottom tree is kept until another is needed, which is then computed in its memory. With it the part of a
//! signature by the top tree is kept, which is the same for all leaves of the bottom tree.

ghost use Rattle.std.specs.Prelude.{◌≡◌, ◌+◌, ◌*◌, ◌^◌, ◌/◌, ◌%◌, ◌<◌, ◌++◌, IfOk, IsTrue, OnOk, Some};
ghost use Rattle.iss_base.specs.Heights.{IsHeight};
ghost use Rattle.iss_keys.specs.Trees.{tree_root};
ghost use Rattle.iss_keys.specs.Levels.{top_secret, bottom_secret, top_tree, by_top, root_statement, root_of};
ghost use Rattle.iss_keys.specs.Signatures.{part_by, part_of, parts_of, signature_of, Verifies};

use crate::digits::{digest_of_root, digest_of_statement};
use crate::heights::{Height, TreeHeight};
use crate::late::LateTree;
use crate::made::MadeTree;
use crate::marks::{BOTTOM_SECRET, TOP_SECRET};
use crate::remembered::Signatures;
use crate::signing::NoMemory;
use crate::tree::root_of_secret;
use iss_base::heights::{digests_of_height, has_two_levels};
use sha2::{Digest, Sha256};
use std::alloc::{AllocError, Global};
use std::cell::RefCell;
use std::marker::Model;

/// How many leaves a bottom tree has.
pub const BOTTOM_LEAVES: u32 = 1024;

// The secret of the top tree.
fn top_secret(secret: &[u8; 32]) -> [u8; 32]
    ensures { result ≡ top_secret secret.now }
{
    let mut hasher = Sha256::new();
    hasher.update([TOP_SECRET]);
    hasher.update(secret);
    hasher.finalize()
}

// The secret of a bottom tree.
fn bottom_secret(secret: &[u8; 32], bottom: u32) -> [u8; 32]
    ensures { result ≡ bottom_secret secret.now bottom }
{
    let mut hasher = Sha256::new();
    hasher.update([BOTTOM_SECRET]);
    hasher.update(secret);
    hasher.update(bottom.to_be_bytes());
    hasher.finalize()
}

// The tree whose root is public.
// rule: Signatures: A key above height 12 has a top tree, and a bottom tree of height 10 under each of its leaves
#[tactic(auto, unfolding(crate::specs::Levels::top_tree))]
fn top_tree(alloc: Global, secret: &[u8; 32], height: Height) -> LateTree
    ensures { result ≡ top_tree secret.now height.levels }
{
    if has_two_levels(height.levels) {
        LateTree::new(alloc, top_secret(secret), height.of_top())
    } else {
        LateTree::new(alloc, *secret, height.of_top())
    }
}

/// The public root of a secret, computed without a tree: by the same hashes, and without allocating.
#[tactic(auto, unfolding(crate::specs::Levels::top_tree))]
pub fn root_of_key(secret: &[u8; 32], height: Height) -> [u8; 32]
    ensures { result ≡ root_of secret.now height.levels }
{
    if has_two_levels(height.levels) {
        root_of_secret(&top_secret(secret), height.of_top())
    } else {
        root_of_secret(secret, height.of_top())
    }
}

// A bottom tree of a key, and the part of a signature by the leaf of the top tree that signs its root.
#[derive(Drop)]
struct Bottom {
    secret: [u8; 32],
    height: u8,
    number: u32,
    tree: MadeTree,
    above: Vec<u8>,
}

impl Model for Bottom {
    ghost use Rattle.std.specs.Prelude.{◌≡◌};
    ghost use Rattle.iss_keys.specs.Internal.Bottoms.{BottomView, IsBottom};

    ghost Value = { BottomView };

    ghost view = { λ b. record { secret = b.secret; height = b.height; number = b.number } };

    ghost invariant = { λ b. IsBottom b.secret b.height b.number b.tree b.above.items };
}

impl Bottom {
    // Whether it is this bottom tree of this key.
    fn is(&self, secret: &[u8; 32], height: u8, number: u32) -> bool
        ensures { IsTrue result → self.now ≡ record { secret = secret.now; height = height; number = number } }
    {
        self.number == number && self.secret == *secret && self.height == height
    }

    // Appends both parts of a signature over a digest, by the leaf of it that is this leaf of the key.
    fn write_parts(&self, leaf: u32, digest: &[u8; 32], out: &mut Vec<u8>) -> Result<(), AllocError>
        ensures { OnOk result (out.new.items ≡ out.old.items
            ++ part_of (bottom_secret self.now.secret self.now.number) 10 (leaf % 1024) digest.now
            ++ part_by self.now.secret self.now.height (by_top self.now.secret self.now.number)) }
    {
        self.tree.write_part(leaf % BOTTOM_LEAVES, digest, out)?;
        out.extend_from_slice(&self.above)?;
        Ok(())
    }
}

// The bottom tree over a secret, computed in the memory of an old one if there is one.
fn tree_over(alloc: Global, old: Option<Bottom>, secret: &[u8; 32]) -> Result<MadeTree, NoMemory>
    ensures { IfOk result (λ t. t ≡ record { secret = secret.now; height = 10 }) }
{
    let Some(bottom) = old else {
        return Ok(MadeTree::make(alloc, secret, TreeHeight::of_bottom())?);
    };
    let mut tree = bottom.tree;
    tree.replace(secret);
    Ok(tree)
}

/// The trees of a key, by its secret and height.
#[derive(Drop)]
pub struct KeyTrees {
    secret: [u8; 32],
    height: Height,
    top: LateTree,
    bottom: RefCell<Option<Bottom>>,
    made: Signatures,
}

impl Model for KeyTrees {
    ghost use Rattle.std.specs.Prelude.{◌≡◌};
    ghost use Rattle.iss_keys.specs.Levels.{KeySeed, top_tree};
    ghost use Rattle.iss_keys.specs.Internal.Remembered.{AreTrees};

    ghost Value = { KeySeed };

    ghost view = { λ t. record { secret = t.secret; height = t.height.levels } };

    ghost invariant = { λ t. AreTrees t.secret t.height.levels t.top t.made };
}

impl KeyTrees {
    /// The trees of a key, of which nothing is computed yet. At most `most` signatures are remembered.
    pub fn new(alloc: Global, secret: [u8; 32], height: Height, most: usize) -> KeyTrees
        ensures { result ≡ record { secret = secret; height = height.levels } }
    {
        let top = top_tree(alloc, &secret, height);
        KeyTrees {
            secret,
            height,
            top,
            bottom: RefCell::new(None),
            made: Signatures::new(alloc, secret, height, most),
        }
    }

    /// The height of the key.
    pub fn height(&self) -> Height
        ensures value { result.levels ≡ self.now.height }
        ensures height { IsHeight result.levels }
    {
        self.height
    }

    /// The public root. It needs no bottom tree.
    pub fn root(&self) -> [u8; 32]
        ensures { result ≡ root_of self.now.secret self.now.height }
    {
        self.top.root()
    }

    // The part of a signature by the leaf of the only or the top tree over this root of a bottom tree.
    // rule: Signatures: Leaf b of a top tree signs the root of bottom tree b, and nothing else
    fn part_above(&self, number: u32, root: &[u8; 32]) -> Result<Vec<u8>, NoMemory>
        requires { number < 2 ^ (top_tree self.now.secret self.now.height).height }
        ensures { IfOk result (λ part. part.items ≡ part_by self.now.secret self.now.height
            (record { tree = 0; leaf = number; statement = root_statement number root.now })) }
    {
        let tree = self.top.tree()?;
        let mut part = Vec::with_capacity(self.top.alloc(), 2144 + 32 * tree.height() as usize)?;
        tree.write_part(number, &digest_of_root(number, root), &mut part)?;
        Ok(part)
    }

    // Puts a bottom tree into a place, unless it is there.
    fn put_bottom(&self, place: &mut Option<Bottom>, number: u32) -> Result<(), NoMemory>
        requires { number < 2 ^ (top_tree self.now.secret self.now.height).height }
        ensures { OnOk result (place.new
            ≡ Some (record { secret = self.now.secret; height = self.now.height; number = number })) }
    {
        if let Some(bottom) = place
            && bottom.is(&self.secret, self.height.levels, number)
        {
            return Ok(());
        }
        let secret = bottom_secret(&self.secret, number);
        let tree = tree_over(self.top.alloc(), place.take(), &secret)?;
        let above = self.part_above(number, &tree.root())?;
        *place = Some(Bottom {
            secret: self.secret,
            height: self.height.levels,
            number,
            tree,
            above,
        });
        Ok(())
    }

    // Appends the parts of a signature, with a place for the leaf's bottom tree.
    fn write_with(
        &self,
        place: &mut Option<Bottom>,
        leaf: u32,
        statement: &[u8],
        out: &mut Vec<u8>,
    ) -> Result<(), NoMemory>
        requires two { 12 < self.now.height }
        requires leaf { leaf < 2 ^ self.now.height }
        ensures { OnOk result
            (out.new.items ≡ out.old.items ++ parts_of self.now.secret self.now.height leaf statement.now) }
    {
        self.put_bottom(place, leaf / BOTTOM_LEAVES)?;
        let Some(bottom) = place else {
            unreachable!();
        };
        bottom.write_parts(leaf, &digest_of_statement(statement), out)?;
        Ok(())
    }

    // Appends the parts of a signature.
    fn write_parts(&self, leaf: u32, statement: &[u8], out: &mut Vec<u8>) -> Result<(), NoMemory>
        requires { leaf < 2 ^ self.now.height }
        ensures { OnOk result
            (out.new.items ≡ out.old.items ++ parts_of self.now.secret self.now.height leaf statement.now) }
    {
        if !has_two_levels(self.height.levels) {
            let tree = self.top.tree()?;
            tree.write_part(leaf, &digest_of_statement(statement), out)?;
            return Ok(());
        }
        if let Ok(mut place) = self.bottom.try_borrow_mut() {
            return self.write_with(&mut place, leaf, statement, out);
        }
        let mut place = None;
        self.write_with(&mut place, leaf, statement, out)
    }

    // The signature of a statement with a leaf, computed.
    fn make(&self, leaf: u32, statement: &[u8]) -> Result<Vec<u8>, NoMemory>
        requires { leaf < 2 ^ self.now.height }
        ensures { IfOk result
            (λ sig. sig.items ≡ signature_of self.now.secret self.now.height leaf statement.now) }
    {
        let room = 5 + 32 * digests_of_height(self.height.levels);
        let mut out = Vec::with_capacity(self.top.alloc(), room)?;
        out.push(self.height.levels)?;
        out.extend_from_slice(&leaf.to_be_bytes())?;
        self.write_parts(leaf, statement, &mut out)?;
        Ok(out)
    }

    /// The signature of a statement with a leaf: a remembered one, or computed and then remembered.
    pub fn sign(&self, leaf: u32, statement: &[u8]) -> Result<Vec<u8>, NoMemory>
        requires { leaf < 2 ^ self.now.height }
        ensures { IfOk result
            (λ sig. sig.items ≡ signature_of self.now.secret self.now.height leaf statement.now) }
    {
        if let Some(signature) = self.made.recall(leaf, statement) {
            return Ok(signature);
        }
        let signature = self.make(leaf, statement)?;
        self.made.remember(leaf, statement, &signature);
        Ok(signature)
    }

    /// Whether this is a remembered signature of a statement.
    pub fn has_made(&self, statement: &[u8], signature: &[u8]) -> bool
        ensures { IsTrue result →
            Verifies (root_of self.now.secret self.now.height) self.now.height statement.now signature.now }
    {
        self.made.has(statement, signature)
    }
}
