//! The batches that a replica accepted, by slot.
ghost use Rattle.std.specs.Prelude.{◌≡◌, ◌∷◌, List, [], OnOk};
ghost use Rattle.iss_base.specs.Lists.{same_bytes};
ghost use Rattle.iss_request.specs.declared.ids.Slot.{Slot};
ghost use Rattle.iss_request.specs.declared.requests.Batch.{Batch};
ghost use Rattle.hs_views.specs.Accepted.{AreAccepted, batches_in, is_among};
ghost use Rattle.hs_views.specs.Batches.{same_batch, same_request, was_accepted};

use iss_request::{Batch, NoMemory, Request, Seq, Slot};
use std::alloc::Global;
use std::collections::BTreeMap;

/// For each slot, the batches accepted there.
#[derive(Drop)]
pub struct Accepted {
    all: BTreeMap<u64, Seq<Batch>>,
}

fn same(a: &[u8], b: &[u8]) -> bool
    ensures { result ≡ same_bytes a.now b.now }
{
    a == b
}

// Whether two requests are equal, byte by byte.
fn same_request(a: &Request, b: &Request) -> bool
    ensures { result ≡ same_request a.now b.now }
{
    a.id.client == b.id.client
        && a.id.number == b.id.number
        && same(a.payload.as_slice(), b.payload.as_slice())
        && same(a.sig.as_slice(), b.sig.as_slice())
}

// Whether two batches are equal.
fn same_batch(a: &[Request], b: &[Request]) -> bool
    ensures { result ≡ same_batch a.now b.now }
{
    match a {
        [] => b.is_empty(),
        [x, xs @ ..] => match b {
            [] => false,
            [y, ys @ ..] => same_request(x, y) && same_batch(xs, ys),
        },
    }
}

// Whether the batch is in the list.
fn is_among(batches: &[Batch], batch: &Batch) -> bool
    ensures { result ≡ is_among batch.now batches.now }
{
    let wanted = batch.as_slice();
    batches
        .iter()
        .any(|there| same_batch(there.as_slice(), wanted))
}

// The list, empty if there is none.
fn batches_in(alloc: Global, batches: Option<Seq<Batch>>) -> Seq<Batch>
    ensures { result ≡ batches_in batches }
{
    match batches {
        Some(batches) => batches,
        None => Seq::new(alloc),
    }
}

impl Accepted {
    /// No accepted batches.
    pub fn new(alloc: Global) -> Accepted
        ensures { AreAccepted result [] }
    {
        Accepted {
            all: BTreeMap::new(alloc),
        }
    }

    /// Whether the batch was accepted at the slot.
    pub fn has(&self, slot: Slot, batch: &Batch) -> bool
        ensures { (old : List (Slot × Batch)) → AreAccepted self.now old → result ≡ was_accepted slot.0 batch.now old }
    {
        match self.all.get(&slot.0) {
            Some(batches) => is_among(batches.as_slice(), batch),
            None => false,
        }
    }

    /// Adds a batch accepted at the slot. The only error is out of memory.
    pub fn keep(&mut self, alloc: Global, slot: Slot, batch: Batch) -> Result<(), NoMemory>
        ensures { OnOk result ((old : List (Slot × Batch)) → AreAccepted self.old old →
            AreAccepted self.new ((slot, batch) ∷ old)) }
    {
        let before = self.all.insert(slot.0, Seq::new(alloc))?;
        let mut batches = batches_in(alloc, before);
        batches.push(batch)?;
        self.all.insert(slot.0, batches)?;
        Ok(())
    }
}
