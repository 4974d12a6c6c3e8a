//! An ordering instance, with the identities of the requests that it accepted.
ghost use Rattle.std.specs.Prelude.{◌≡◌, ◌<◌, ◌≤◌, ◌↔◌, ℕ, List, [], IfOk, OnOk, IsTrue, Some};
ghost use Rattle.iss_keys.specs.KeyStates.{left_of};
ghost use Rattle.iss_rules.specs.Concrete.{rules_of};
ghost use Rattle.iss_rules.specs.Judge.{judge};
ghost use Rattle.iss_rules.specs.Verdicts.{verdict};
ghost use Rattle.iss_request.specs.declared.requests.Batch.{Batch};
ghost use Rattle.iss_request.specs.declared.requests.Value.{Value};
ghost use Rattle.iss_sb.specs.Calls.{IsGoodInput, IsGoodParams};
ghost use Rattle.iss_sb.specs.Evidence.{Item, accepts};
ghost use Rattle.iss_segment.specs.Answers.{IsInstanceStep, IsJudgedStep, IsVerdict};
ghost use Rattle.iss_segment.specs.Ground.{RestsOn};
ghost use Rattle.iss_segment.specs.Instance.{RefinesItems, SegmentState};
ghost use Rattle.iss_segment.specs.Internal.Marks.{and_marks};

use crate::judge::refusal;
use iss_keys::Keys;
use iss_layout::Layout;
use iss_request::{Batch, NoMemory, NodeId, Slot};
use iss_rules::Refusal;
use iss_sb::{Effects, Input, Params, Sequenced, StepError};
use iss_window::{Ids, Windows};
use std::alloc::Global;
use std::marker::Model;

/// Why an instance took no input. `Spent`: fewer one-time keys are left than one step may use. `Refused`: the batch
/// that the step would accept is invalid. `NoMemory`: out of memory.
#[derive(Clone, Copy, Debug, PartialEq, Eq)]
pub enum StepRefusal {
    Spent,
    Refused(Refusal),
    NoMemory,
}

/// The instance of one leader's segment at this node.
#[derive(Drop)]
pub struct Segment<M: Sequenced> {
    params: Params,
    me: NodeId,
    ordering: M,
    marked: Ids,
}

impl<M: Sequenced> Model for Segment<M> {
    ghost use Rattle.std.specs.Prelude.{◌<◌};
    ghost use Rattle.iss_sb.specs.Calls.{IsGoodParams};
    ghost use Rattle.iss_segment.specs.Instance.{SegmentState};

    ghost Value = { SegmentState M };

    ghost view = { λ s. record { params = s.params; me = s.me; ordering = s.ordering; marked = s.marked } };

    ghost invariant = { λ s. IsGoodParams M.spec s.params × (s.me.0 < s.params.setup.n) };
}

impl<M: Sequenced> Segment<M> {
    /// An instance that has taken no input. The only error is out of memory.
    pub fn start(alloc: Global, params: Params, me: NodeId) -> Result<Segment<M>, NoMemory>
        requires good { IsGoodParams M.spec params }
        requires me { me.0 < params.setup.n }
        ensures refines { IfOk result (λ s. RefinesItems M.refines s []) }
        ensures same { IfOk result (λ s. (s.params ≡ params) × (s.me ≡ me)) }
    {
        let ordering = M::start(alloc, &params, me)?;
        Ok(Segment {
            params,
            me,
            ordering,
            marked: Ids::new(alloc),
        })
    }

    /// The parameters that the instance was started with.
    pub fn params(&self) -> &Params
        ensures same { result.now ≡ self.now.params }
        ensures good { IsGoodParams M.spec result.now }
    {
        &self.params
    }

    /// The identities of the requests that the instance accepted.
    pub fn marked(&self) -> &Ids
        ensures { result.now ≡ self.now.marked }
    {
        &self.marked
    }

    /// Whether the module would accept a proposal for this slot.
    pub fn casts(&self, slot: Slot) -> bool
        ensures { (xs : List (Item M.Msg)) (batch : Batch) → RefinesItems M.refines self.now xs →
            (IsTrue result ↔ (M.spec.asks self.now.params self.now.me.0 xs (Input.Cast slot batch) ≡ Some
            (slot, batch))) }
    {
        self.ordering.casts(&self.params, slot)
    }

    /// The first reason to refuse a batch, given the buckets and windows of the epoch. `None` if it is valid. The slot
    /// does not matter.
    pub fn judge(
        &self,
        layout: &Layout,
        windows: &Windows,
        _slot: Slot,
        batch: &Batch,
    ) -> Option<Refusal>
        ensures { (before : List Value) →
            RestsOn self.now.params.setup before self.now.params.epoch.0 layout.now windows.now →
            result ≡ judge (rules_of self.now.params.setup) before self.now.params.epoch.0 self.now.params.leader.0
            self.now.marked batch.now }
    {
        let (params, marked) = (&self.params, &self.marked);
        refusal(params, layout, windows, marked, batch.as_slice())
    }

    /// Takes an input. If the input asks to accept a batch, the batch must be valid. A refused input changes nothing.
    pub fn step(
        &mut self,
        alloc: Global,
        layout: &Layout,
        windows: &Windows,
        input: Input<M::Msg>,
        keys: &mut Keys,
    ) -> Result<Effects<M::Msg>, StepRefusal>
        requires { IsGoodInput self.old.params input }
        ensures step { IsJudgedStep M.spec M.refines layout.now windows.now self.old self.new input keys.old
            keys.new result }
        ensures same { (self.new.params ≡ self.old.params) × (self.new.me ≡ self.old.me) }
    {
        if keys.left() < M::signs(&self.params) {
            return Err(StepRefusal::Spent);
        }
        if let Some(refusal) = self.verdict(layout, windows, &input) {
            return Err(StepRefusal::Refused(refusal));
        }
        match self.take(alloc, input, keys) {
            Ok(effects) => Ok(effects),
            Err(StepError::Spent) => Err(StepRefusal::Spent),
            Err(StepError::NoMemory) => Err(StepRefusal::NoMemory),
        }
    }

    /// Takes an input without checking its batch.
    pub fn take(
        &mut self,
        alloc: Global,
        input: Input<M::Msg>,
        keys: &mut Keys,
    ) -> Result<Effects<M::Msg>, StepError>
        requires { IsGoodInput self.old.params input }
        ensures step { IsInstanceStep M.spec M.refines self.old self.new input keys.old keys.new result }
        ensures same { (self.new.params ≡ self.old.params) × (self.new.me ≡ self.old.me) }
    {
        M::laws();
        let effects = self.ordering.step(alloc, &self.params, input, true, keys)?;
        mark(&mut self.marked, &effects.accepted)?;
        Ok(effects)
    }

    // The reason to refuse the batch that the input asks to accept, if there is such a batch and a reason.
    fn verdict(&self, layout: &Layout, windows: &Windows, input: &Input<M::Msg>) -> Option<Refusal>
        requires input { IsGoodInput self.now.params input.now }
        ensures { IsVerdict M.spec M.refines layout.now windows.now self.now input.now result }
    {
        match self.ordering.asks(&self.params, input) {
            Some((slot, batch)) => self.judge(layout, windows, slot, batch),
            None => None,
        }
    }
}

// Adds the identities of an accepted batch.
// rule: Acceptance: An accepted request is marked to the end of its epoch, also where its slot becomes nil
fn mark(marked: &mut Ids, accepted: &Option<(Slot, Batch)>) -> Result<(), NoMemory>
    ensures { OnOk result (marked.new ≡ and_marks marked.old accepted.now) }
{
    match accepted {
        Some((_, batch)) => marked.add_all(batch.as_slice()),
        None => Ok(()),
    }
}
