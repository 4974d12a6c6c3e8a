//! The prepared certificates that the replica itself collected: for each slot the one of the highest view.
ghost use Rattle.std.specs.Prelude.{◌≡◌, ℕ, Some, None, IfOk, OnOk};
ghost use Rattle.iss_base.specs.Lists.{set_at};
ghost use Rattle.sb_pbft.specs.Places.{top_at};
ghost use Rattle.sb_pbft.specs.Internal.Turns.{is_of, tops_of};

use iss_request::{NoMemory, Seq, Slot};
use pbft_wire::Certificate;
use std::alloc::Global;
use std::collections::BTreeMap;

/// For each slot the prepared certificate of the highest view.
#[derive(Drop)]
pub struct PreparedCertificates {
    pub(crate) highest: BTreeMap<u64, Certificate>,
}

impl PreparedCertificates {
    /// No certificates.
    pub fn new(alloc: Global) -> PreparedCertificates
        ensures { (s : ℕ) → top_at result s ≡ None }
    {
        PreparedCertificates {
            highest: BTreeMap::new(alloc),
        }
    }

    /// Whether the slot's certificate is of this view.
    pub fn is_of(&self, view: u16, slot: Slot) -> bool
        ensures { result ≡ is_of view (top_at self.now slot.0) }
    {
        match self.highest.get(&slot.0) {
            Some(certificate) => certificate.view == view,
            None => false,
        }
    }

    /// Stores a certificate in place of its slot's earlier one. The replica's view only grows, so the last one stored
    /// is of the highest view.
    pub fn put(&mut self, certificate: Certificate) -> Result<(), NoMemory>
        ensures { OnOk result
            ((s : ℕ) → top_at self.new s ≡ set_at (top_at self.old) certificate.slot.0 (Some certificate) s) }
    {
        self.highest.insert(certificate.slot.0, certificate)?;
        Ok(())
    }

    /// Copies of the certificates of these slots, in the order of the slots. Slots without a certificate are left
    /// out.
    pub fn of_slots(&self, alloc: Global, slots: &[Slot]) -> Result<Seq<Certificate>, NoMemory>
        ensures { IfOk result (λ all. all ≡ tops_of (top_at self.now) slots.now) }
    {
        let mut all = Seq::new(alloc);
        for slot in slots {
            if let Some(certificate) = self.highest.get(&slot.0) {
                all.push(certificate.copy(alloc)?)?;
            }
        }
        Ok(all)
    }
}
