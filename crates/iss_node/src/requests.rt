//! Clients' requests at a node.
ghost use Rattle.std.specs.Prelude.{◌≡◌, ◌++◌, ◌∷◌, ◌||◌, [], List, IfOk, OnOk, false, length, reverse};
ghost use Rattle.iss_buckets.specs.Waiting.{AreNew, absent};
ghost use Rattle.iss_rules.specs.Concrete.{rules_of};
ghost use Rattle.iss_model.specs.Node.{returned, takes_request};
ghost use Rattle.iss_node.specs.Flights.{IsCompleted};
ghost use Rattle.iss_node.specs.Internal.Inputs.{AreLogged, HasCompletedCasts};
ghost use Rattle.iss_node.specs.Steps.{IsLater, IsStepOf};
ghost use Rattle.iss_request.specs.Log.{has_id, ids};
ghost use Rattle.iss_request.specs.declared.ids.ReqId.{ReqId as Identity};
ghost use Rattle.iss_window.specs.Kept.{RefinesNoted};
ghost use Rattle.iss_window.specs.Window.{Noted, is_inside, place_of};

use crate::answers::{Outcome, StepResult};
use crate::growth::is_nil;
use crate::state::NodeState;
use iss_request::{Batch, NoMemory, ReqId, Request, Slot};
use iss_rules::Why;
use iss_sb::Sequenced;
use iss_segment::is_signed;
use iss_window::{Place, Windows};
use std::alloc::Global;

impl<M: Sequenced> NodeState<M> {
    /// Takes a client's request. It waits to be proposed, unless its signature is invalid, the node knows it, or its
    /// number is outside the client's window.
    // rule: Acceptance: A request is taken inside its window, if not waiting, in flight or ordered
    // rule: Epochs: A request that a correct node took is in one place: its log, waiting, or in flight
    pub(crate) fn take_request(
        &mut self,
        alloc: Global,
        request: Request,
    ) -> Result<StepResult, NoMemory>
        ensures answer { IfOk result
            (λ a. IsStepOf M.spec M.refines self.old (λ F R me c. takes_request R M.spec me c request) self.new a) }
        ensures later { IsLater self.old self.new }
    {
        if !self.is_signed(&request) {
            return Ok(Err(Why::BadRequest));
        }
        if self.knows(request.id) {
            return Ok(Err(Why::Known));
        }
        if !is_inside(&self.windows, request.id) {
            return Ok(Err(Why::OutOfWindow));
        }
        self.wait(request)?;
        Ok(Ok(Outcome::nothing(alloc)))
    }

    // Whether a request's client signed it.
    // rule: Acceptance: A request that its client did not sign is dropped before any other test
    fn is_signed(&self, request: &Request) -> bool
        ensures { result ≡ (rules_of self.now.setup).signed request.now }
    {
        is_signed(self.directory.directory(), request)
    }

    // Whether the request waits, is in flight, or is in the log.
    fn knows(&self, id: ReqId) -> bool
        ensures { (all : List Identity) → AreLogged self.now all →
            result ≡ (has_id id (ids self.now.waiting) || (has_id id self.now.flight.ids || has_id id all)) }
    {
        self.waiting.has(id) || self.flight.has(id) || self.is_logged(id)
    }

    // Whether the request is in the log, in this epoch or an earlier one.
    fn is_logged(&self, id: ReqId) -> bool
        ensures { (all : List Identity) → AreLogged self.now all → result ≡ has_id id all }
    {
        self.logged.has(id) || self.windows.ordered(id)
    }

    // Appends the request to the waiting list, unless it is already there.
    fn wait(&mut self, request: Request) -> Result<(), NoMemory>
        ensures ok { OnOk result (has_id request.id (ids self.old.waiting) ≡ false →
            self.new ≡ record self.old { waiting = self.old.waiting ++ request ∷ [] }) }
        ensures rest { self.new ≡ record self.old { waiting = self.new.waiting } }
    {
        let _added = self.waiting.add(request)?;
        Ok(())
    }

    /// Removes the proposals whose slots are now in the log. If such a slot became nil, its requests wait again at the
    /// end of the list, unless they are in the log.
    pub(crate) fn complete_casts(&mut self, alloc: Global) -> Result<(), NoMemory>
        ensures landed { OnOk result (HasCompletedCasts self.old self.new) }
        ensures rest { self.new ≡ record self.old { waiting = self.new.waiting; flight = self.new.flight } }
    {
        let slots = self.log.entries().len() as u64;
        let casts = self.flight.take_completed(alloc, slots)?;
        self.requeue_nil_casts(casts)
    }

    // Puts the requests of proposals that became nil back into the waiting list.
    // rule: Epochs: Requests proposed in a slot that became nil wait again, unless they are ordered
    fn requeue_nil_casts(&mut self, casts: Vec<(Slot, Batch)>) -> Result<(), NoMemory>
        ensures back { OnOk result ((all : List Identity) → AreLogged self.old all →
            AreNew self.old.waiting (absent all (returned (reverse self.old.log.entries) casts.items)) →
            self.new.waiting ≡ self.old.waiting ++ absent all (returned (reverse self.old.log.entries) casts.items)) }
        ensures rest { self.new ≡ record self.old { waiting = self.new.waiting } }
    {
        for (slot, batch) in casts {
            if is_nil(&self.log, slot) {
                self.wait_again(batch)?;
            }
        }
        Ok(())
    }

    // Puts the requests of a batch back into the waiting list, except those in the log.
    fn wait_again(&mut self, batch: Batch) -> Result<(), NoMemory>
        ensures back { OnOk result ((all : List Identity) → AreLogged self.old all →
            AreNew self.old.waiting (absent all batch) →
            self.new.waiting ≡ self.old.waiting ++ absent all batch) }
        ensures rest { self.new ≡ record self.old { waiting = self.new.waiting } }
    {
        for request in batch.into_requests() {
            if !self.is_logged(request.id) {
                self.wait(request)?;
            }
        }
        Ok(())
    }
}

// Whether the request's number is inside its client's window.
fn is_inside(windows: &Windows, id: ReqId) -> bool
    ensures { (n : Noted) → RefinesNoted windows.now n → result ≡ is_inside (place_of windows.now.width n.closed id) }
{
    match windows.test(id) {
        Place::Inside => true,
        Place::Below | Place::Above => false,
    }
}
