//! The inputs of a node's instances, and their effects on the node.
ghost use Rattle.std.specs.Prelude.{◌≡◌, ◌≢◌, ◌≤◌, Ok, Err, IfOk, OnOk, drop, length};
ghost use Rattle.iss_keys.specs.KeyStates.{left_of};
ghost use Rattle.iss_model.specs.Node.{step_unjudged, try_step};
ghost use Rattle.iss_node.specs.Internal.Inputs.{HasAppliedDeliveries, HasAppliedEffects, IsChained, IsHandedOut, IsInputTaken, IsJudgedInput, and_accepted};
ghost use Rattle.iss_node.specs.Internal.Ready.{IsReadInput, IsTried, MayStep};
ghost use Rattle.iss_node.specs.Steps.{IsLater, IsStepOf, IsTurnOf};

use crate::answers::{Accepted, Outcome, StepResult};
use crate::growth::{extend_log, join_all, retire_ordered};
use crate::state::NodeState;
use iss_request::{Batch, Bytes, NoMemory, NodeId, Seq, Slot, Value};
use iss_rules::Why;
use iss_sb::{Claim, Effects, Input, Sequenced, StepError};
use iss_segment::StepRefusal;
use std::alloc::Global;

impl<M: Sequenced> NodeState<M> {
    /// Steps `leader`'s instance, unless (in this order) `leader` does not lead this epoch, one of the signatures that
    /// the input claims is invalid, too few one-time keys are left, or the batch is refused.
    // rule: Acceptance: An instance takes an input if it leads, its claims verify, leaves are left, no refusal
    pub(crate) fn try_step(
        &mut self,
        alloc: Global,
        leader: NodeId,
        input: Input<M::Msg>,
        claims: &[Claim],
    ) -> Result<StepResult, NoMemory>
        requires { IsReadInput M.spec M.refines self.old leader.0 input claims.now }
        ensures answer { IfOk result
            (λ a. IsStepOf M.spec M.refines self.old (λ F R me c. try_step F R M.spec me c leader.0 input) self.new a) }
        ensures tried { IfOk result (IsTried self.old self.new) }
        ensures later { IsLater self.old self.new }
    {
        M::laws();
        let _setup = &self.setup;
        if !self.leads(leader) {
            return Ok(Err(Why::NotLeader));
        }
        if !self.is_credible(claims) {
            return Ok(Err(Why::BadClaim));
        }
        if !self.has_leaves(leader) {
            return Ok(Err(Why::NoKeys));
        }
        match self.judged_step(alloc, leader, input) {
            Ok(effects) => Ok(Ok(self.apply_effects(alloc, leader, effects)?)),
            Err(StepRefusal::Refused(refusal)) => Ok(Err(Why::Refused(refusal))),
            Err(StepRefusal::NoMemory) => Err(NoMemory),
            Err(StepRefusal::Spent) => unreachable!(),
        }
    }

    /// Steps `leader`'s instance without these checks. The only error is out of memory.
    pub(crate) fn step_unjudged(
        &mut self,
        alloc: Global,
        leader: NodeId,
        input: Input<M::Msg>,
    ) -> Result<Outcome, NoMemory>
        requires { MayStep M.spec self.old leader.0 input }
        ensures taken { IfOk result
            (λ outcome. IsTurnOf M.spec M.refines self.old
            (λ F R me c. step_unjudged F R M.spec me c leader.0 input) self.new outcome) }
        ensures leaf { OnOk result (1 ≤ left_of self.new.keys) }
        ensures later { IsLater self.old self.new }
    {
        M::laws();
        let _setup = &self.setup;
        let effects = self.unjudged_step(alloc, leader, input)?;
        self.apply_effects(alloc, leader, effects)
    }

    // Steps `leader`'s instance if the batch that the input asks for is valid. Only the instance and the keys change.
    fn judged_step(
        &mut self,
        alloc: Global,
        leader: NodeId,
        input: Input<M::Msg>,
    ) -> Result<Effects<M::Msg>, StepRefusal>
        requires { MayStep M.spec self.old leader.0 input }
        ensures step { IsJudgedInput M.spec M.refines self.old self.new leader.0 input result }
        ensures later { IsLater self.old self.new }
    {
        let Some(segment) = &mut self.segments[leader.0 as usize] else {
            unreachable!();
        };
        segment.step(alloc, &self.layout, &self.windows, input, &mut self.keys)
    }

    // Steps `leader`'s instance without checking the batch. Only the instance and the keys change.
    fn unjudged_step(
        &mut self,
        alloc: Global,
        leader: NodeId,
        input: Input<M::Msg>,
    ) -> Result<Effects<M::Msg>, NoMemory>
        requires { MayStep M.spec self.old leader.0 input }
        ensures taken { IfOk result (λ e. IsInputTaken M.spec M.refines self.old self.new leader.0 input e) }
        ensures later { IsLater self.old self.new }
    {
        let Some(segment) = &mut self.segments[leader.0 as usize] else {
            unreachable!();
        };
        let stepped = segment.take(alloc, input, &mut self.keys);
        with_leaves(stepped)
    }

    // Applies the effects of an instance's step to the node, and makes its outcome.
    fn apply_effects(
        &mut self,
        alloc: Global,
        leader: NodeId,
        effects: Effects<M::Msg>,
    ) -> Result<Outcome, NoMemory>
        ensures absorbed { OnOk result (HasAppliedEffects self.old self.new leader effects) }
        ensures made { IfOk result (λ o. IsHandedOut M.spec self.old leader.0 effects.sends o.hashed o) }
        ensures hashed { IfOk result (λ o. IsChained self.old self.new effects.hashed o.hashed) }
        ensures later { IsLater self.old self.new }
    {
        let Effects {
            sends,
            accepted,
            delivers,
            hashed,
        } = effects;
        let mut strings = hashed;
        self.accept(leader, accepted)?;
        self.apply_deliveries(alloc, delivers.into_vec(), &mut strings)?;
        self.hand_out(alloc, leader, sends.as_slice(), strings)
    }

    // Notes a batch that an instance accepted.
    fn accept(&mut self, leader: NodeId, accepted: Option<(Slot, Batch)>) -> Result<(), NoMemory>
        ensures accepted { OnOk result
            (self.new ≡ record self.old { accepted = and_accepted leader self.old.accepted accepted }) }
        ensures later { IsLater self.old self.new }
    {
        if let Some((slot, batch)) = accepted {
            self.accepted.push(Accepted {
                leader,
                slot,
                batch,
            })?;
        }
        Ok(())
    }

    /// Appends delivered values to the log. Ordered requests leave the waiting list. Own proposals at filled slots are
    /// done; those that became nil are queued again. Hashed strings are appended to `hashed`.
    pub(crate) fn apply_deliveries(
        &mut self,
        alloc: Global,
        delivers: Vec<(Slot, Value)>,
        hashed: &mut Seq<Bytes>,
    ) -> Result<(), NoMemory>
        ensures grown { OnOk result (HasAppliedDeliveries self.old self.new delivers.items) }
        ensures hashed { OnOk result (IsChained self.old self.new hashed.old hashed.new) }
        ensures later { IsLater self.old self.new }
    {
        let held = extend_log(&mut self.log, delivers)?;
        let joined = behind(self.log.entries(), held);
        let directory = self.directory.directory();
        join_all(directory, &mut self.chains, joined, hashed)?;
        retire_ordered(joined, &mut self.waiting, &mut self.logged)?;
        self.complete_casts(alloc)
    }
}

// The effects of a step that had enough leaves.
fn with_leaves<T: Drop>(stepped: Result<Effects<T>, StepError>) -> Result<Effects<T>, NoMemory>
    requires { stepped ≢ Err StepError.Spent }
    ensures { IfOk result (λ e. stepped ≡ Ok e) }
{
    match stepped {
        Ok(effects) => Ok(effects),
        Err(StepError::NoMemory) => Err(NoMemory),
        Err(StepError::Spent) => unreachable!(),
    }
}

// The values from index `place` on.
fn behind(values: &[Value], place: usize) -> &[Value]
    requires { place ≤ length values.now }
    ensures { result.now ≡ drop place values.now }
{
    &values[place..]
}
