//! Sets of request identities.
ghost use Rattle.std.specs.Prelude.{◌≡◌, ◌&&◌, ℕ, [], not, take, OnOk, OnErr};
ghost use Rattle.iss_request.specs.Log.{has_id, ids, same_id};
ghost use Rattle.iss_request.specs.declared.ids.ReqId.{ReqId};
ghost use Rattle.iss_window.specs.Ids.{and_id, and_ids};

use indexmap::IndexSet;
use iss_request::{NoMemory, ReqId, Request};
use std::alloc::Global;
use std::marker::Model;

/// A set of identities. Contracts see it as the list in the order of insertion.
#[derive(Drop)]
pub struct Ids {
    all: IndexSet<ReqId>,
}

impl Model for Ids {
    ghost use Rattle.std.specs.Prelude.{List};
    ghost use Rattle.iss_request.specs.declared.ids.ReqId.{ReqId};

    ghost Value = { List ReqId };

    ghost view = { λ s. s.all.keys };
}

impl Ids {
    /// The empty set.
    pub fn new(alloc: Global) -> Ids
        ensures { result ≡ [] }
    {
        Ids {
            all: IndexSet::new(alloc),
        }
    }

    /// Whether the identity is in the set.
    pub fn has(&self, id: ReqId) -> bool
        ensures { result ≡ has_id id self.now }
    {
        self.all.contains(&id)
    }

    /// The identities in the order of insertion.
    pub fn as_slice(&self) -> &[ReqId]
        ensures { result.now ≡ self.now }
    {
        self.all.as_slice()
    }

    /// Adds an identity. One that is there keeps its place. The only error is out of memory.
    pub fn add(&mut self, id: ReqId) -> Result<(), NoMemory>
        ensures ok { OnOk result (self.new ≡ and_id self.old id) }
        ensures err { OnErr result (self.new ≡ self.old) }
    {
        self.all.insert(id)?;
        Ok(())
    }

    /// Adds the identities of these requests. After out of memory, a prefix of them is added.
    pub fn add_all(&mut self, requests: &[Request]) -> Result<(), NoMemory>
        ensures ok { OnOk result (self.new ≡ and_ids self.old requests.now) }
        ensures err { OnErr result ((k : ℕ) × (self.new ≡ and_ids self.old (take k requests.now))) }
    {
        for request in requests {
            self.add(request.id)?;
        }
        Ok(())
    }

    /// Removes the identities of these requests.
    pub fn drop_all(&mut self, requests: &[Request])
        ensures { (x : ReqId) → has_id x self.new ≡ (has_id x self.old && not (has_id x (ids requests.now))) }
    {
        for request in requests {
            self.remove(request.id);
        }
    }

    // Removes one identity.
    fn remove(&mut self, id: ReqId)
        ensures { (x : ReqId) → has_id x self.new ≡ (has_id x self.old && not (same_id x id)) }
    {
        let _gone = self.all.swap_remove(&id);
    }
}
