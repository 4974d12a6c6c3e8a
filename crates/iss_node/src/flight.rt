//! The node's own proposals in flight: their slots are not yet in the log.
ghost use Rattle.std.specs.Prelude.{◌≡◌, ◌<◌, ◌++◌, ◌∷◌, ◌&&◌, ◌==◌, [], not, OnOk, IfOk};
ghost use Rattle.std.specs.List.{list_any};
ghost use Rattle.iss_window.specs.Ids.{and_ids};
ghost use Rattle.iss_model.specs.Node.{flying, has_slot};
ghost use Rattle.iss_node.specs.Flights.{FlightState, IsCompleted, completed};
ghost use Rattle.iss_request.specs.Log.{has_id, ids as request_ids};
ghost use Rattle.iss_request.specs.declared.ids.ReqId.{ReqId};

use iss_request::{Batch, NoMemory, ReqId, Slot};
use iss_window::Ids;
use std::alloc::Global;
use std::marker::Model;

/// The proposals in flight, oldest first, and the identities of their requests.
#[derive(Drop)]
pub struct Flight {
    casts: Vec<(Slot, Batch)>,
    ids: Ids,
}

impl Model for Flight {
    ghost use Rattle.iss_node.specs.Flights.{FlightState};

    ghost Value = { FlightState };

    ghost view = { λ f. record { casts = f.casts.items; ids = f.ids } };
}

impl Flight {
    /// No proposals.
    pub fn new(alloc: Global) -> Flight
        ensures { result ≡ record { casts = []; ids = [] } }
    {
        Flight {
            casts: Vec::new(alloc),
            ids: Ids::new(alloc),
        }
    }

    /// The proposals in flight, oldest first.
    pub fn casts(&self) -> &[(Slot, Batch)]
        ensures { result.now ≡ self.now.casts }
    {
        self.casts.as_slice()
    }

    /// Whether the request is in flight.
    pub fn has(&self, id: ReqId) -> bool
        ensures { result ≡ has_id id self.now.ids }
    {
        self.ids.has(id)
    }

    /// Whether a proposal is in flight for the slot.
    pub fn is_cast(&self, slot: Slot) -> bool
        ensures { result ≡ list_any (λ x. x.0.0 == slot.0) self.now.casts }
    {
        self.casts.as_slice().iter().any(|cast| cast.0.0 == slot.0)
    }

    /// Notes a proposal. The only error is out of memory.
    pub fn push(&mut self, slot: Slot, batch: Batch) -> Result<(), NoMemory>
        ensures { OnOk result (self.new ≡ record {
          casts = self.old.casts ++ (slot, batch) ∷ [];
          ids = and_ids self.old.ids batch;
        }) }
    {
        self.ids.add_all(batch.as_slice())?;
        self.casts.push((slot, batch))?;
        Ok(())
    }

    /// Removes and returns the proposals for slots below `slots`, which are in the log now.
    pub fn take_completed(
        &mut self,
        alloc: Global,
        slots: u64,
    ) -> Result<Vec<(Slot, Batch)>, NoMemory>
        ensures gone { IfOk result (λ gone. gone.items ≡ completed slots self.old.casts) }
        ensures left { OnOk result (IsCompleted self.old self.new slots) }
    {
        let casts = std::mem::replace(&mut self.casts, Vec::new(alloc));
        let mut gone = Vec::new(alloc);
        for (slot, batch) in casts {
            if slot.0 < slots {
                self.ids.drop_all(batch.as_slice());
                gone.push((slot, batch))?;
            } else {
                self.casts.push((slot, batch))?;
            }
        }
        Ok(gone)
    }
}
