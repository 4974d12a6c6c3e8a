//! The accepted proposals of an instance, by view and slot.
ghost use Rattle.std.specs.Prelude.{◌≡◌, ℕ, Some, None, OnOk};
ghost use Rattle.std.specs.Option.{option_copied};
ghost use Rattle.iss_base.specs.Lists.{set_at2};
ghost use Rattle.sb_pbft.specs.Places.{proposal_at};

use iss_request::{Bytes, NoMemory, Slot, Value};
use pbft_wire::Change;
use std::alloc::Global;
use std::collections::BTreeMap;

/// A slot in a view.
#[derive(PartialEq, Eq, PartialOrd, Ord, Drop)]
pub struct Place {
    pub view: u16,
    pub slot: u64,
}

/// A value with its digest, and the signature of the primary's PrePrepare.
#[derive(Drop)]
pub struct Proposal {
    pub value: Value,
    pub digest: [u8; 32],
    pub sig: Bytes,
}

/// What a new view proposes: at each slot the value that these ViewChanges choose.
#[derive(Drop)]
pub struct Choices<'a> {
    pub view: u16,
    pub changes: &'a [Change],
}

/// The accepted proposals: at most one for each view and slot.
#[derive(Drop)]
pub struct Proposals {
    pub(crate) all: BTreeMap<Place, Proposal>,
}

impl Proposals {
    /// No proposals.
    pub fn new(alloc: Global) -> Proposals
        ensures { (v s : ℕ) → proposal_at result v s ≡ None }
    {
        Proposals {
            all: BTreeMap::new(alloc),
        }
    }

    /// The proposal of the view at the slot, if there is one.
    pub fn get(&self, view: u16, slot: Slot) -> Option<&Proposal>
        ensures { option_copied result ≡ proposal_at self.now view slot.0 }
    {
        let place = Place { view, slot: slot.0 };
        self.all.get(&place)
    }

    /// Stores the proposal of the view at the slot, in place of an earlier one.
    pub fn put(&mut self, view: u16, slot: Slot, proposal: Proposal) -> Result<(), NoMemory>
        ensures { OnOk result
            ((v s : ℕ) → proposal_at self.new v s ≡ set_at2 (proposal_at self.old) view slot.0 (Some proposal) v s) }
    {
        let place = Place { view, slot: slot.0 };
        self.all.insert(place, proposal)?;
        Ok(())
    }
}
