//! One event at a core. First the signatures that it claims are tested, then the core takes it. What the step made is
//! then tested, recorded and posted.
ghost use Rattle.std.specs.Prelude.{◌≡◌, ◌<◌, IfOk, length};
ghost use Rattle.iss_model.specs.Node.{Core};
ghost use Rattle.iss_model.specs.Run.{cores_of};
ghost use Rattle.iss_model.specs.Frames.{claims_at_in, frame_of};
ghost use Rattle.iss_keep.specs.State.{KeptRefinesCore};
ghost use Rattle.iss_keep.specs.Steps.{IsSame};
ghost use Rattle.iss_node.specs.Steps.{IsOfNodes};
ghost use Rattle.iss_world.specs.Books.{AddsStrings};
ghost use Rattle.iss_world.specs.Refines.{Follows, RefinesSome, by_core};
ghost use Rattle.iss_world.specs.Internal.Steps.{AnswersMachine, CompletesTurn, FollowsStep, IsLeftAt, IsWorking, MayRetreat, Reveals};

use crate::claims::{Claims, book_own};
use crate::ends::{EventOutcome, Evidence};
use crate::members::Members;
use crate::simulation::Simulation;
use crate::strings::Strings;
use iss_disk::{Failed, MemoryDisk};
use iss_keep::Kept;
use iss_node::{Answer, Outcome};
use iss_request::{Epoch, NoMemory, Seq, Value};
use iss_rules::{NodeEvent, Why};
use iss_sb::{Claim, Sequenced};
use std::alloc::Global;

// The signatures that an event claims, as its core reads them.
fn claims_at<M: Sequenced>(
    alloc: Global,
    node: &Kept<M, MemoryDisk>,
    event: &NodeEvent,
) -> Result<Seq<Claim>, NoMemory>
    ensures { IfOk result (λ claims. (c : Core M.Msg) → KeptRefinesCore M.spec M.refines node.now c →
        claims ≡ claims_at_in (frame_of node.now.setup M.spec) node.now.me.0 c event.now) }
{
    match event {
        NodeEvent::Packet(bytes) => node.claims_of(bytes),
        NodeEvent::Propose => Ok(Seq::new(alloc)),
        NodeEvent::Timeout(_) => Ok(Seq::new(alloc)),
        NodeEvent::AskFrom(_) => Ok(Seq::new(alloc)),
    }
}

// A node's number of slots and its epoch, to which it can retreat.
fn savepoint_of<M: Sequenced>(node: &Kept<M, MemoryDisk>) -> (usize, Epoch)
    ensures slots { result.0 ≡ length node.now.node.state.log.entries }
    ensures epoch { result.1.0 ≡ node.now.node.state.epoch }
{
    (node.log().entries().len(), node.epoch())
}

// The values of a node's log from this slot on.
fn values_from<M: Sequenced>(node: &Kept<M, MemoryDisk>, slots: usize) -> &[Value] {
    match node.log().entries().get(slots..) {
        Some(values) => values,
        None => &[],
    }
}

// Steps a kept node. Also returns its number of slots and its epoch from before the event, to which it can retreat.
fn take_with_savepoint<M: Sequenced>(
    node: &mut Kept<M, MemoryDisk>,
    event: NodeEvent,
) -> (Result<Answer, Failed>, usize, Epoch)
    ensures answer { AnswersMachine M.spec M.refines node.old node.new event result.0 }
    ensures slots { result.1 ≡ length node.old.node.state.log.entries }
    ensures epoch { result.2.0 ≡ node.old.node.state.epoch }
    ensures same { IsSame node.old node.new }
{
    let _setup = node.setup();
    let (slots, epoch) = savepoint_of(node);
    (node.take(event), slots, epoch)
}

// The evidence that a step reveals, if any: a forged claim in a message that arrived early, or a collision. Without
// evidence, the step's strings are recorded as hashed.
fn ends(
    alloc: Global,
    members: &Members,
    signed: &Claims,
    hashed: &mut Strings,
    outcome: &Outcome,
) -> Result<Option<Evidence>, NoMemory>
    ensures told { IfOk result (Reveals members.now signed.now hashed.old outcome.now) }
    ensures booked { IfOk result (AddsStrings hashed.old hashed.new outcome.now.hashed) }
{
    let early = outcome.early.as_slice();
    match signed.first_forged(alloc, members, early)? {
        Some(claim) => Ok(Some(Evidence::Forged(claim))),
        None => hashed.book(members.directory(), outcome.hashed.as_slice()),
    }
}

impl<M: Sequenced> Simulation<M> {
    // A core takes an event. It is lost if the core's disk has failed. If the event claims a forged signature, the run
    // stops, and the core is stale.
    // rule: Evidence: A verified claim that its correct signer never sent ends the run before the step
    // rule: Recovery: A core whose disk has failed takes and reads nothing until it recovers
    pub(crate) fn take(
        &mut self,
        alloc: Global,
        core: u32,
        event: NodeEvent,
    ) -> Result<EventOutcome, NoMemory>
        requires core { core < cores_of self.old.setup }
        requires nodes { IsOfNodes self.old.setup.n event }
        requires standing { RefinesSome M.spec M.refines self.old }
        ensures happened { IfOk result (Follows M.spec M.refines self.old self.new
            (by_core core) (λ W w. W.takes w core event)) }
        ensures same { self.new.setup ≡ self.old.setup }
    {
        let node = &self.nodes[core as usize];
        if node.stale() {
            return Ok(EventOutcome::Lost(Why::Stopped));
        }
        let claims = claims_at(alloc, node, &event)?;
        let forged = self
            .signed
            .first_forged(alloc, &self.members, claims.as_slice())?;
        match forged {
            Some(claim) => {
                self.stop_at(core);
                Ok(EventOutcome::Ended(Evidence::Forged(claim)))
            }
            None => self.step(alloc, core, event),
        }
    }

    // The run stops at a core that read a forged claim. The core is stale from now on, and shows what it showed.
    // rule: Evidence: Of all cores the one that read the evidence is stale, and those whose disk has failed
    fn stop_at(&mut self, core: u32)
        requires core { core < cores_of self.old.setup }
        ensures left { IsLeftAt M.spec M.refines self.old self.new core }
        ensures same { self.new.setup ≡ self.old.setup }
    {
        let node = &mut self.nodes[core as usize];
        let (held, entered) = savepoint_of(node);
        node.retreat(held, entered);
    }

    // A core with a working disk takes an event whose claims were tested.
    // rule: Recovery: An event that is not kept is lost (`Stopped`), and the core is as it was before
    fn step(&mut self, alloc: Global, core: u32, event: NodeEvent) -> Result<EventOutcome, NoMemory>
        requires core { core < cores_of self.old.setup }
        requires nodes { IsOfNodes self.old.setup.n event }
        requires working { IsWorking M.spec M.refines self.old core }
        ensures happened { IfOk result (FollowsStep M.spec M.refines self.old self.new core event) }
        ensures same { self.new.setup ≡ self.old.setup }
    {
        let (answer, slots, epoch) = take_with_savepoint(&mut self.nodes[core as usize], event);
        match answer {
            Ok(Answer::Taken(outcome)) => self.taken(alloc, core, &outcome, slots, epoch),
            Ok(Answer::Dropped(why)) => Ok(EventOutcome::Lost(why)),
            Ok(Answer::NoMemory | Answer::Stale) => Err(NoMemory),
            Err(Failed) => Ok(EventOutcome::Lost(Why::Stopped)),
        }
    }

    // A core accepted and journaled an event. Either its outcome reveals evidence and the core retreats, or its
    // signatures are recorded and its packets posted.
    // rule: Evidence: A world whose run has ended repeats its evidence and shows the state before it
    // rule: Recovery: All that a core has signed and sent is of the events in its journal
    fn taken(
        &mut self,
        alloc: Global,
        core: u32,
        outcome: &Outcome,
        slots: usize,
        epoch: Epoch,
    ) -> Result<EventOutcome, NoMemory>
        requires core { core < cores_of self.old.setup }
        requires retreat { MayRetreat self.old core slots epoch.0 }
        ensures happened { IfOk result
            (CompletesTurn M.spec M.refines self.old self.new core slots epoch.0 outcome.now) }
        ensures same { self.new.setup ≡ self.old.setup }
    {
        let ended = ends(
            alloc,
            &self.members,
            &self.signed,
            &mut self.hashed,
            outcome,
        )?;
        match ended {
            Some(end) => {
                self.nodes[core as usize].retreat(slots, epoch);
                Ok(EventOutcome::Ended(end))
            }
            None => {
                let values = values_from(&self.nodes[core as usize], slots);
                self.hashed.share(&self.members, values)?;
                let own = outcome.own.as_slice();
                book_own(alloc, &self.members, core, own, &mut self.signed)?;
                self.post_all(core, outcome.sends.as_slice())?;
                Ok(EventOutcome::Done)
            }
        }
    }
}
