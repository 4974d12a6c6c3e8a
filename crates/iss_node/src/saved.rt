//! What the snapshots of a node hold.
ghost use Rattle.std.specs.Prelude.{◌≡◌, ◌+◌, ◌-◌, ◌^◌, ◌<◌, ℕ, [], true, OnOk};
ghost use Rattle.iss_node.specs.Internal.Marks.{HasPut, HoldsTheSame};
ghost use Rattle.iss_node.specs.Saved.{HasSaved, holds, stray};

use iss_checkpoint::Cert;
use iss_request::{Epoch, NoMemory};
use std::alloc::Global;
use std::collections::BTreeSet;
use std::marker::Model;

/// Where the last snapshot ended, and of which epochs snapshots hold the certificates. No step reads it.
#[derive(Drop)]
pub struct Saved {
    from: Epoch,
    // The certificate of each epoch before this one is held.
    low: u64,
    // The further epochs whose certificates are held: those behind one that has none yet.
    strays: BTreeSet<u64>,
}

impl Model for Saved {
    ghost use Rattle.iss_node.specs.Saved.{SavedState};

    ghost Value = { SavedState };

    ghost view = { λ s. record { from = s.from.0; low = s.low; strays = s.strays.keys } };
}

impl Saved {
    /// There is no snapshot.
    pub(crate) fn nothing(alloc: Global) -> Saved
        ensures { result ≡ record { from = 0; low = 0; strays = [] } }
    {
        Saved {
            from: Epoch(0),
            low: 0,
            strays: BTreeSet::new(alloc),
        }
    }

    /// The epoch where the last snapshot ended.
    pub(crate) fn from(&self) -> Epoch
        ensures { result.0 ≡ self.now.from }
    {
        self.from
    }

    /// Whether a snapshot holds the certificate of this epoch.
    pub(crate) fn holds(&self, epoch: Epoch) -> bool
        ensures { result ≡ holds self.now epoch.0 }
    {
        epoch.0 < self.low || self.strays.contains(&epoch.0)
    }

    /// The certificate of each epoch before this one is held.
    pub(crate) fn low(&self) -> u64
        ensures { result ≡ self.now.low }
    {
        self.low
    }

    /// Notes a further snapshot: where it ends, and its certificates.
    pub(crate) fn note(&mut self, to: Epoch, certs: &[Cert]) -> Result<(), NoMemory>
        ensures { OnOk result (HasSaved self.old to.0 certs.now self.new) }
    {
        self.from = to;
        for cert in certs {
            self.put(cert.epoch)?;
        }
        self.advance();
        Ok(())
    }

    // Notes that the certificate of an epoch is held.
    fn put(&mut self, epoch: Epoch) -> Result<(), NoMemory>
        ensures { OnOk result (HasPut self.old epoch.0 self.new) }
    {
        self.strays.insert(epoch.0)?;
        Ok(())
    }

    // Moves the mark to the first epoch whose certificate is not held.
    fn advance(&mut self)
        ensures { HoldsTheSame self.old self.new }
    {
        while self.low < u64::MAX && self.strays.contains(&self.low) {
            self.step();
        }
    }

    // Moves the mark past an epoch whose certificate is held.
    fn step(&mut self)
        requires held { stray self.old self.old.low ≡ true }
        requires more { self.old.low < 2 ^ 64 - 1 }
        ensures same { HoldsTheSame self.old self.new }
        ensures up { self.new.low ≡ self.old.low + 1 }
    {
        self.strays.remove(&self.low);
        self.low += 1;
    }
}
