//! The known nodes: the tree, and of each node its view and its justification.
ghost use Rattle.std.specs.Prelude.{◌≡◌, ◌∷◌, List, [], Some, OnOk};
ghost use Rattle.hs_tree.specs.Tree.{Node};
ghost use Rattle.sb_chained.specs.Links.{Holds, digest_at, link_of, linked};
ghost use Rattle.sb_chained.specs.Rules.{committed, down, find};

use hs_tree::Tree;
use iss_request::NoMemory;
use iss_sb::Content;
use std::alloc::Global;
use std::collections::BTreeMap;

/// The view of a node, and its justification: the view of its votes, and the parent's digest.
#[derive(Clone, Copy)]
pub struct Link {
    pub view: u32,
    pub from: u32,
    pub parent: [u8; 32],
}

/// The lock: view and node of a certificate.
#[derive(Clone, Copy)]
pub struct Lock {
    pub view: u32,
    pub node: [u8; 32],
}

/// The known nodes: the tree, and for each digest the link of the newest node that has it.
#[derive(Drop)]
pub struct Nodes {
    pub(crate) tree: Tree,
    links: BTreeMap<[u8; 32], Link>,
}

impl Nodes {
    /// Only the root.
    pub fn new(alloc: Global) -> Nodes
        ensures { Holds result [] }
    {
        Nodes {
            tree: Tree::new(alloc),
            links: BTreeMap::new(alloc),
        }
    }

    /// The link of the newest node with this digest.
    pub fn link(&self, d: &[u8; 32]) -> Option<Link>
        ensures { (ks : List Node) → Holds self.now ks → result ≡ linked (find ks d.now) }
    {
        match self.links.get(d) {
            Some(link) => Some(*link),
            None => None,
        }
    }

    // The link of the parent, if its view is the one before.
    fn below(&self, above: &Link) -> Option<Link>
        ensures { (ks : List Node) (k : Node) → Holds self.now ks → link_of k ≡ above.now →
            result ≡ linked (down ks (Some k)) }
    {
        let Some(link) = self.link(&above.parent) else {
            return None;
        };
        if link.view as u64 + 1 != above.view as u64 {
            return None;
        }
        Some(link)
    }

    /// The node that a certificate of this digest decides: the grandparent, if the three have consecutive views
    /// (HotStuff: three-chain).
    // rule: Chained HotStuff: Certified nodes extend committed ones
    // rule: Chained HotStuff: Three nodes of consecutive views decide the lowest, once the highest is certified
    pub fn committed(&self, d: &[u8; 32]) -> Option<[u8; 32]>
        ensures { (ks : List Node) → Holds self.now ks → result ≡ digest_at (committed ks d.now) }
    {
        let Some(top) = self.link(d) else {
            return None;
        };
        let Some(middle) = self.below(&top) else {
            return None;
        };
        let Some(_low) = self.below(&middle) else {
            return None;
        };
        Some(middle.parent)
    }

    /// Adds a node. Its parent is the newest node with the parent's digest. The only error is out of memory.
    pub fn add(&mut self, digest: [u8; 32], link: Link, what: Content) -> Result<(), NoMemory>
        ensures { OnOk result ((k : Node) (ks : List Node) → k.digest ≡ digest → link_of k ≡ link → k.what ≡ what →
            Holds self.old ks → Holds self.new (k ∷ ks)) }
    {
        self.tree.add(digest, link.parent, what)?;
        self.links.insert(digest, link)?;
        Ok(())
    }
}
