//! The tree as a replica knows it: a vector of nodes, each with its parent's index, and a map from digests to indices.
//! A branch is walked from its node towards the root, only as far as needed.
ghost use Rattle.std.specs.Prelude.{◌≡◌, ℕ, List, [], ◌∷◌, ◌++◌, drop, length, reverse, IfOk, OnOk};
ghost use Rattle.std.specs.Option.{option_copied};
ghost use Rattle.iss_base.specs.Lists.{same_bytes};
ghost use Rattle.iss_sb.specs.Evidence.{one_or_none};
ghost use Rattle.hs_tree.specs.Known.{Keeps, Leads, known_at, meets, place, values, whats};
ghost use Rattle.hs_tree.specs.Tree.{Node, branch, extends, filled, is_known, value_of, weight};

use iss_request::{NoMemory, Seq, Value};
use iss_sb::Content;
use std::alloc::Global;
use std::collections::BTreeMap;

// The root's digest.
const ROOT: [u8; 32] = [0; 32];

/// A known node: its parent's digest, its content, and its parent's index (`None` if that is the root). Then the number
/// of nodes on its branch, and of slots that they fill.
#[derive(Drop)]
pub struct Known {
    parent: [u8; 32],
    what: Content,
    above: Option<usize>,
    depth: usize,
    slots: usize,
}

/// The known nodes.
#[derive(Drop)]
pub struct Tree {
    nodes: Vec<Known>,
    places: BTreeMap<[u8; 32], usize>,
}

/// Whether two digests are equal.
pub fn same(a: &[u8; 32], b: &[u8; 32]) -> bool
    ensures { result ≡ same_bytes a.now b.now }
{
    a == b
}

/// How many slots a content fills.
pub fn weight(what: &Content) -> usize
    ensures { result ≡ weight what.now }
{
    match what {
        Content::Mark => 0,
        _ => 1,
    }
}

// Appends the content's value; a mark has none.
fn put_value(what: &Content, found: &mut Vec<Value>) -> Result<(), NoMemory>
    ensures { OnOk result (found.new.items ≡ found.old.items ++ one_or_none (value_of what.now)) }
{
    match what {
        Content::Nil => Ok(found.push(Value::Nil)?),
        Content::Holds(batch) => Ok(found.push(Value::Batch(batch.copy()?))?),
        Content::Mark => Ok(()),
    }
}

impl Tree {
    /// Only the root.
    pub fn new(alloc: Global) -> Tree
        ensures { Keeps result [] }
    {
        Tree {
            nodes: Vec::new(alloc),
            places: BTreeMap::new(alloc),
        }
    }

    // The index of the newest node with this digest.
    fn place(&self, d: &[u8; 32]) -> Option<usize>
        ensures { result ≡ place self.now d.now }
    {
        match self.places.get(d) {
            Some(place) => Some(*place),
            None => None,
        }
    }

    // The node at this index.
    fn at(&self, place: Option<usize>) -> Option<&Known>
        ensures { option_copied result ≡ known_at self.now.nodes.items place }
    {
        match place {
            Some(place) => self.nodes.get(place),
            None => None,
        }
    }

    // The number of nodes on the branch from this index up to the root.
    fn depth(&self, place: Option<usize>) -> usize
        ensures { (ks : List Node) → Leads self.now.nodes.items place ks → result ≡ length ks }
    {
        match self.at(place) {
            Some(node) => node.depth,
            None => 0,
        }
    }

    // The number of slots that this branch fills.
    fn slots_from(&self, place: Option<usize>) -> usize
        ensures { (ks : List Node) → Leads self.now.nodes.items place ks → result ≡ filled (whats ks) }
    {
        match self.at(place) {
            Some(node) => node.slots,
            None => 0,
        }
    }

    // Whether some node of this branch has a parent with digest `e`.
    fn stands_on(&self, place: Option<usize>, e: &[u8; 32]) -> bool
        ensures { (ks : List Node) → Leads self.now.nodes.items place ks → result ≡ meets e.now ks }
    {
        let mut here = place;
        for _ in 0..self.depth(place) {
            let Some(node) = self.at(here) else {
                return false;
            };
            if same(&node.parent, e) {
                return true;
            }
            here = node.above;
        }
        false
    }

    // The values of this branch after its first `from` slots, newest first.
    fn gather(
        &self,
        alloc: Global,
        place: Option<usize>,
        from: usize,
    ) -> Result<Vec<Value>, NoMemory>
        ensures { IfOk result (λ vs. (ks : List Node) → Leads self.now.nodes.items place ks →
            reverse vs.items ≡ drop from (values (whats ks))) }
    {
        let mut found = Vec::new(alloc);
        let mut here = place;
        for _ in 0..self.depth(place) {
            let Some(node) = self.at(here) else {
                return Ok(found);
            };
            if node.slots <= from {
                return Ok(found);
            }
            put_value(&node.what, &mut found)?;
            here = node.above;
        }
        Ok(found)
    }

    /// Whether the digest is a known node's or the root's.
    pub fn has(&self, d: &[u8; 32]) -> bool
        ensures { (ks : List Node) → Keeps self.now ks → result ≡ is_known ks d.now }
    {
        self.places.contains_key(d) || same(d, &ROOT)
    }

    /// How many slots the branch of the node fills.
    pub fn slots(&self, d: &[u8; 32]) -> usize
        ensures { (ks : List Node) → Keeps self.now ks → result ≡ filled (branch ks d.now) }
    {
        self.slots_from(self.place(d))
    }

    /// Whether the node `e` is the node `d` or an ancestor of it.
    pub fn extends(&self, d: &[u8; 32], e: &[u8; 32]) -> bool
        ensures { (ks : List Node) → Keeps self.now ks → result ≡ extends ks d.now e.now }
    {
        same(d, e) || self.stands_on(self.place(d), e)
    }

    /// The values of the node's branch after its first `from` slots, by ascending slot. The only error is out of
    /// memory.
    pub fn behind(&self, alloc: Global, d: &[u8; 32], from: usize) -> Result<Seq<Value>, NoMemory>
        ensures { IfOk result (λ vs. (ks : List Node) → Keeps self.now ks → vs ≡ drop from (values (branch ks d.now))) }
    {
        let mut found = self.gather(alloc, self.place(d), from)?;
        found.reverse();
        Ok(Seq::of(found))
    }

    /// Adds a node. Its parent is the newest node with the parent's digest. The only error is out of memory.
    // rule: HotStuff: A branch is what its nodes hold, even where a digest repeats
    pub fn add(&mut self, digest: [u8; 32], parent: [u8; 32], what: Content) -> Result<(), NoMemory>
        ensures { OnOk result ((k : Node) (ks : List Node) → k.digest ≡ digest → k.parent ≡ parent → k.what ≡ what →
            Keeps self.old ks → Keeps self.new (k ∷ ks)) }
    {
        let above = self.place(&parent);
        let depth = self.depth(above).saturating_add(1);
        let slots = self.slots_from(above).saturating_add(weight(&what));
        let place = self.nodes.len();
        self.nodes.push(Known {
            parent,
            what,
            above,
            depth,
            slots,
        })?;
        self.places.insert(digest, place)?;
        Ok(())
    }
}
