//! How a node proposes batches (ISS: SB-cast).
ghost use Rattle.std.specs.Prelude.{◌≡◌, ◌≤◌, Some, List, IfOk, OnOk, is_some, true};
ghost use Rattle.iss_keys.specs.KeyStates.{left_of};
ghost use Rattle.iss_rules.specs.Concrete.{rules_of};
ghost use Rattle.iss_model.specs.Node.{first_slot, next_slot, step};
ghost use Rattle.iss_rules.specs.Past.{Past};
ghost use Rattle.iss_model.specs.Views.{is_castable_now};
ghost use Rattle.iss_node.specs.Internal.Casts.{IsCut, casting, is_open};
ghost use Rattle.iss_node.specs.Internal.Ready.{HasLeaves, RefinesSome};
ghost use Rattle.iss_node.specs.State.{RefinesPast, core_of, led};
ghost use Rattle.iss_node.specs.Steps.{IsLater, IsStepOf, IsTurnOf};
ghost use Rattle.iss_sb.specs.Evidence.{Item};
ghost use Rattle.iss_segment.specs.Instance.{RefinesItems, SegmentState};

use crate::answers::{Outcome, StepResult};
use crate::flight::Flight;
use crate::state::NodeState;
use iss_log::Log;
use iss_request::{Batch, NoMemory, Slot};
use iss_rules::{NodeEvent, Why};
use iss_sb::{Input, Sequenced};
use iss_segment::Segment;
use std::alloc::Global;

impl<M: Sequenced> NodeState<M> {
    /// Proposes a batch of waiting requests for the first free slot of the node's own segment.
    pub(crate) fn propose(&mut self, alloc: Global) -> Result<StepResult, NoMemory>
        requires { RefinesSome M.spec M.refines self.old }
        ensures answer { IfOk result
            (λ a. IsStepOf M.spec M.refines self.old (λ F R me c. step F R M.spec me c NodeEvent.Propose) self.new a) }
        ensures later { IsLater self.old self.new }
    {
        if !self.leads(self.me) {
            return Ok(Err(Why::NotLeader));
        }
        let Some(slot) = self.next_slot() else {
            return Ok(Err(Why::NothingToCast));
        };
        if !self.has_leaves(self.me) {
            return Ok(Err(Why::NoKeys));
        }
        let outcome = self.cast(alloc, slot)?;
        Ok(Ok(self.advance_epochs(alloc, outcome)?))
    }

    /// Whether a proposal would find a free slot.
    pub(crate) fn castable(&self) -> bool
        ensures { (past : Past M.Msg) → RefinesPast M.spec M.refines self.now past →
            result ≡ is_castable_now (rules_of self.now.setup) M.spec self.now.me.0 (core_of self.now past) }
    {
        self.leads(self.me) && self.next_slot().is_some()
    }

    // The first slot of the node's own segment that has no value, no proposal in flight, and for which the module
    // accepts proposals.
    // rule: Buckets: A leader proposes at its least slot that is neither proposed nor filled
    fn next_slot(&self) -> Option<Slot>
        ensures { (past : Past M.Msg) (g : SegmentState M) → RefinesPast M.spec M.refines self.now past →
            led self.now.segments self.now.me.0 ≡ Some g →
            result ≡ next_slot (rules_of self.now.setup) M.spec self.now.me.0 (core_of self.now past) }
    {
        M::laws();
        let segment = self.segment(self.me)?;
        let slots = segment.params().slots.as_slice();
        first_castable(segment, &self.log, &self.flight, slots)
    }

    // Proposes for a slot; all checks have passed. The only error is out of memory.
    fn cast(&mut self, alloc: Global, slot: Slot) -> Result<Outcome, NoMemory>
        requires { HasLeaves M.spec self.old self.old.me.0 }
        ensures taken { IfOk result
            (λ outcome. IsTurnOf M.spec M.refines self.old
            (λ F R me c. casting F R M.spec me c slot) self.new outcome) }
        ensures leaf { OnOk result (1 ≤ left_of self.new.keys) }
        ensures later { IsLater self.old self.new }
    {
        let batch = self.cut(alloc, slot)?;
        self.step_unjudged(alloc, self.me, Input::Cast { slot, batch })
    }

    // Takes a batch out of the waiting requests and notes it as in flight for the slot.
    fn cut(&mut self, alloc: Global, slot: Slot) -> Result<Batch, NoMemory>
        requires { is_some (led self.old.segments self.old.me.0) ≡ true }
        ensures cut { IfOk result (λ batch. IsCut self.old self.new slot batch) }
        ensures later { IsLater self.old self.new }
    {
        let Some(segment) = &self.segments[self.me.0 as usize] else {
            unreachable!();
        };
        let most = self.setup.batch as usize;
        let marked = segment.marked().as_slice();
        let batch = self
            .waiting
            .cut(alloc, &self.layout, self.me, marked, most)?;
        self.flight.push(slot, batch.copy()?)?;
        Ok(batch)
    }
}

// The first slot of a segment that has no value, no proposal in flight, and for which the module accepts proposals.
fn first_castable<M: Sequenced>(
    segment: &Segment<M>,
    log: &Log,
    flight: &Flight,
    slots: &[Slot],
) -> Option<Slot>
    ensures { (xs : List (Item M.Msg)) → RefinesItems M.refines segment.now xs →
        result ≡ first_slot (is_open M.spec segment.now.params segment.now.me.0 xs log.now flight.now.casts) slots.now }
{
    for slot in slots {
        if is_open(segment, log, flight, *slot) {
            return Some(*slot);
        }
    }
    None
}

// Whether the slot has no value, no proposal in flight, and the module accepts proposals for it.
fn is_open<M: Sequenced>(segment: &Segment<M>, log: &Log, flight: &Flight, slot: Slot) -> bool
    ensures { (xs : List (Item M.Msg)) → RefinesItems M.refines segment.now xs →
        result ≡ is_open M.spec segment.now.params segment.now.me.0 xs log.now flight.now.casts slot }
{
    M::laws();
    !flight.is_cast(slot) && !log.filled(slot) && segment.casts(slot)
}
