//! The signatures that correct nodes made, and the test of received claims against them.
ghost use Rattle.std.specs.Prelude.{◌≡◌, ◌==◌, ◌∷◌, [], List, IfOk, OnOk, Some, nat_eq, refl};
ghost use Rattle.std.specs.List.{list_any};
ghost use Rattle.std.specs.Cmp.Lexicographic.{pointwise, slice_cmp, nat_list_eq_equiv, nat_list_cmp_total, texts_ties, texts_po};
ghost use Rattle.std.specs.Cmp.{partial_equiv_from_equiv};
ghost use Rattle.std.specs.Ordering.{nat_cmp};
ghost use Rattle.iss_rules.specs.Books.{Signed};
ghost use Rattle.iss_rules.specs.Concrete.{rules_of};
ghost use Rattle.iss_model.specs.Run.{as_signed, booked, first_forged, is_forged};
ghost use Rattle.iss_sb.specs.Evidence.{is_correct};
ghost use Rattle.iss_world.specs.Books.{AddsClaims, AreSigned, is_booked};

use crate::ends::copy_of;
use crate::members::Members;
use iss_request::{NoMemory, NodeId, Setup};
use iss_sb::Claim;
use std::alloc::Global;
use std::cmp::Ordering;
use std::collections::BTreeSet;
use std::marker::Model;

/// The identity of a node (1 byte), then a statement that it signed.
#[derive(Drop)]
pub struct Entry {
    bytes: Vec<u8>,
}

impl Model for Entry {
    ghost use Rattle.std.specs.Prelude.{ℕ, List};

    ghost Value = { List ℕ };

    ghost view = { λ e. e.bytes.items };
}

impl Entry {
    fn of(alloc: Global, by: NodeId, statement: &[u8]) -> Result<Entry, NoMemory>
        ensures { IfOk result (λ e. e ≡ by.0 ∷ statement.now) }
    {
        let mut bytes = Vec::new(alloc);
        bytes.push(by.0)?;
        bytes.extend_from_slice(statement)?;
        Ok(Entry { bytes })
    }
}

impl PartialEq for Entry {
    ghost eq = { λ x y. pointwise nat_eq x y };

    ghost laws = { partial_equiv_from_equiv nat_list_eq_equiv };

    fn eq(&self, other: &Self) -> bool {
        self.bytes.as_slice() == other.bytes.as_slice()
    }
}

impl Eq for Entry {
    ghost laws = { nat_list_eq_equiv };
}

impl PartialOrd for Entry {
    ghost partial_cmp = { λ x y. Some (slice_cmp nat_cmp x y) };

    ghost laws = { texts_po };

    fn partial_cmp(&self, other: &Self) -> Option<Ordering> {
        Some(self.cmp(other))
    }
}

impl Ord for Entry {
    ghost cmp = { λ x y. slice_cmp nat_cmp x y };

    ghost total = { nat_list_cmp_total };

    ghost matches_partial_cmp = { λ x y. refl };

    ghost matches_eq = { λ x y. texts_ties x y };

    fn cmp(&self, other: &Self) -> Ordering {
        self.bytes.as_slice().cmp(other.bytes.as_slice())
    }
}

/// The statements that correct nodes signed, each once.
#[derive(Drop)]
pub struct Claims {
    all: BTreeSet<Entry>,
}

impl Model for Claims {
    ghost use Rattle.std.specs.Prelude.{ℕ, List};

    ghost Value = { List (List ℕ) };

    ghost view = { λ v. v.all.keys };
}

impl Claims {
    /// No signature was made yet.
    pub fn new(alloc: Global) -> Claims
        ensures { AreSigned result [] }
    {
        Claims {
            all: BTreeSet::new(alloc),
        }
    }

    // Whether the named node did sign the statement.
    fn has(&self, alloc: Global, claim: &Claim) -> Result<bool, NoMemory>
        ensures { IfOk result (λ has. has ≡ is_booked self.now claim.now.by.0 claim.now.statement) }
    {
        let entry = Entry::of(alloc, claim.by, claim.statement.as_slice())?;
        Ok(self.all.contains(&entry))
    }

    // Adds one claim.
    fn add(&mut self, alloc: Global, claim: &Claim) -> Result<(), NoMemory>
        ensures { OnOk result (AddsClaims self.old self.new
            (record { by = claim.now.by.0; statement = claim.now.statement } ∷ [])) }
    {
        let entry = Entry::of(alloc, claim.by, claim.statement.as_slice())?;
        self.all.insert(entry)?;
        Ok(())
    }

    /// Adds the claims that a step signed. The only error is out of memory.
    pub fn book(&mut self, alloc: Global, own: &[Claim]) -> Result<(), NoMemory>
        ensures { OnOk result (AddsClaims self.old self.new (as_signed own.now)) }
    {
        for claim in own {
            self.add(alloc, claim)?;
        }
        Ok(())
    }

    // Whether a claim is forged: it names a correct node, its signature is valid, and the node never made it.
    fn is_forged(&self, alloc: Global, members: &Members, claim: &Claim) -> Result<bool, NoMemory>
        ensures { IfOk result (λ forged. (book : List Signed) → AreSigned self.now book →
            forged ≡ is_forged members.now (rules_of members.now) book claim.now) }
    {
        if self.has(alloc, claim)? || !is_correct(members.setup(), claim.by.0 as u32) {
            return Ok(false);
        }
        let directory = members.directory();
        Ok(directory.verify_node(claim.by.0, claim.statement.as_slice(), claim.sig.as_slice()))
    }

    /// The first forged claim: it names a correct node, its signature is valid, and the node never made it.
    pub fn first_forged(
        &self,
        alloc: Global,
        members: &Members,
        claims: &[Claim],
    ) -> Result<Option<Claim>, NoMemory>
        ensures { IfOk result (λ forged. (book : List Signed) → AreSigned self.now book →
            forged ≡ first_forged members.now (rules_of members.now) book claims.now) }
    {
        for claim in claims {
            if self.is_forged(alloc, members, claim)? {
                return Ok(Some(copy_of(claim)?));
            }
        }
        Ok(None)
    }
}

/// Records what a core's step signed, if its node is correct.
// rule: Evidence: The claims that correct nodes send are booked, and none of a faulty node
pub fn book_own(
    alloc: Global,
    members: &Members,
    core: u32,
    own: &[Claim],
    signed: &mut Claims,
) -> Result<(), NoMemory>
    ensures { OnOk result (AddsClaims signed.old signed.new (booked members.now core own.now)) }
{
    if !is_correct(members.setup(), core) {
        return Ok(());
    }
    signed.book(alloc, own)
}

// Whether `node` is in the list.
fn is_among(nodes: &[NodeId], node: u32) -> bool
    ensures { result ≡ list_any (λ k. node == k.0) nodes.now }
{
    nodes.iter().any(|other| node == other.0 as u32)
}

/// Whether `node` exists and is not faulty.
pub fn is_correct(setup: &Setup, node: u32) -> bool
    ensures { result ≡ is_correct setup.now node }
{
    node < setup.n && !is_among(setup.faulty.as_slice(), node)
}
