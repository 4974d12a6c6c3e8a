//! The end of a node's epoch, and the start of the next one.
ghost use Rattle.std.specs.Prelude.{◌≡◌, ◌<◌, ◌+◌, ◌^◌, ◌++◌, IfOk, OnOk, reverse};
ghost use Rattle.std.specs.List.{filter};
ghost use Rattle.iss_layout.specs.Layout.{slots_from};
ghost use Rattle.iss_model.specs.Node.{advance_epochs, is_nil_at, takes_each, takes_early, then_turn};
ghost use Rattle.iss_node.specs.Internal.Epochs.{HasClosed, HasOpened, appended, notes, or_nothing};
ghost use Rattle.iss_node.specs.Internal.Ready.{IsOpen, IsReady, IsToComplete, MayTakeEarly, MayVote};
ghost use Rattle.iss_node.specs.Internal.Shape.{AreFrom};
ghost use Rattle.iss_node.specs.State.{seen_early, seen_one};
ghost use Rattle.iss_node.specs.Steps.{IsEnded, IsLater, IsNextEpoch, IsSettled, IsTurnBehind, IsTurnOf};
ghost use Rattle.iss_window.specs.Kept.{RefinesNoted};
ghost use Rattle.iss_window.specs.Window.{Noted};

use crate::answers::{Early, Outcome, StepResult};
use crate::growth::is_nil;
use crate::starting::start_segments;
use crate::state::NodeState;
use iss_layout::Layout;
use iss_log::Log;
use iss_request::{Epoch, NoMemory, ReqId, Seq, Slot, sum};
use iss_sb::{Claim, Input, Sequenced};
use iss_window::{Ids, Windows};
use std::alloc::Global;
use std::mem;

impl<M: Sequenced> NodeState<M> {
    /// Completes a step: if it filled the epoch, the node votes and starts the next epoch, with the messages that
    /// arrived early for it.
    pub(crate) fn finish_step(
        &mut self,
        alloc: Global,
        step: StepResult,
    ) -> Result<StepResult, NoMemory>
        requires { IsToComplete M.spec M.refines self.old step }
        ensures answer { IfOk result (λ a. IsSettled M.spec M.refines self.old self.new step a) }
        ensures later { IsLater self.old self.new }
    {
        match step {
            Ok(outcome) => Ok(Ok(self.advance_epochs(alloc, outcome)?)),
            Err(why) => Ok(Err(why)),
        }
    }

    /// The same after a step that was accepted. Its outcome comes first.
    pub(crate) fn advance_epochs(
        &mut self,
        alloc: Global,
        outcome: Outcome,
    ) -> Result<Outcome, NoMemory>
        requires { IsReady M.spec M.refines self.old }
        ensures turn { IfOk result
            (λ o. IsTurnBehind M.spec M.refines self.old
            (λ F R me t. advance_epochs F R M.spec me t) outcome self.new o) }
        ensures later { IsLater self.old self.new }
    {
        if !self.is_complete() {
            return Ok(outcome);
        }
        let mut all = outcome;
        let (vote, early) = self.end_epoch(alloc)?;
        append_outcome(&mut all, vote)?;
        self.take_each(alloc, all, early)
    }

    // Votes on the node's complete epoch (ISS: checkpoint) and starts the next one. Returns the vote's outcome and the
    // messages that arrived early.
    // rule: Persistence: A snapshot is of the node as it enters an epoch, with the early messages that it takes next
    fn end_epoch(&mut self, alloc: Global) -> Result<(Outcome, Vec<Early<M::Msg>>), NoMemory>
        requires { MayVote M.spec M.refines self.old }
        ensures ended { IfOk result
            (λ appended. IsEnded M.spec M.refines self.old self.new appended.0 appended.1.items) }
        ensures from { IfOk result (λ appended. AreFrom self.new.setup.n appended.1.items) }
        ensures begun { OnOk result (IsOpen M.spec M.refines self.new) }
        ensures later { IsLater self.old self.new }
    {
        let _setup = &self.setup;
        let vote = self.vote()?;
        let mut outcome = self.hand_out_vote(alloc, &vote)?;
        let early = self.next_epoch(alloc)?;
        let bytes = self.entry(alloc, early.as_slice())?;
        outcome.entered = Some(bytes);
        Ok((outcome, early))
    }

    /// Takes early messages in order while the epoch lasts. Their outcomes are appended to `outcome`.
    // rule: Epochs: Early messages are taken once each, in order of arrival, while their epoch lasts
    pub(crate) fn take_each(
        &mut self,
        alloc: Global,
        outcome: Outcome,
        early: Vec<Early<M::Msg>>,
    ) -> Result<Outcome, NoMemory>
        requires from { AreFrom self.old.setup.n early.items }
        requires lasts { IsOpen M.spec M.refines self.old }
        ensures turn { IfOk result (λ o. IsTurnBehind M.spec M.refines self.old
            (λ F R me t. then_turn t (takes_each F R M.spec me self.old.epoch (seen_early early.items))) outcome
            self.new o) }
        ensures later { IsLater self.old self.new }
    {
        let epoch = self.epoch;
        let mut all = outcome;
        for message in early {
            if self.epoch.0 == epoch.0 {
                let more = self.take_early(alloc, message)?;
                append_outcome(&mut all, more)?;
            }
        }
        Ok(all)
    }

    // Takes an early message as if it arrived now. If it is refused it is lost, but its claimed signatures are
    // reported.
    // rule: Evidence: The claims of an early message are read even where the message is then refused
    fn take_early(&mut self, alloc: Global, message: Early<M::Msg>) -> Result<Outcome, NoMemory>
        requires { MayTakeEarly M.spec M.refines self.old message.from.0 }
        ensures turn { IfOk result
            (λ o. IsTurnOf M.spec M.refines self.old
            (λ F R me c. takes_early F R M.spec me c (seen_one message)) self.new o) }
        ensures goes_on { OnOk result (IsOpen M.spec M.refines self.new) }
        ensures later { IsLater self.old self.new }
    {
        let claims = self.claims_in(alloc, message.leader, message.from, &message.msg)?;
        let Early { from, leader, msg } = message;
        let input = Input::Receive { from, msg };
        let step = self.try_step(alloc, leader, input, claims.as_slice())?;
        let mut outcome = or_nothing(alloc, step);
        if self.is_complete() {
            let (vote, _gone) = self.end_epoch(alloc)?;
            append_outcome(&mut outcome, vote)?;
        }
        Ok(with_early(outcome, claims))
    }

    /// Ends the epoch and starts the next one with fresh instances. Returns the messages that arrived early for it.
    // rule: Epochs: An epoch ends when the log holds all of it, and the next begins with fresh instances
    pub(crate) fn next_epoch(&mut self, alloc: Global) -> Result<Vec<Early<M::Msg>>, NoMemory>
        ensures next { IfOk result (λ early. IsNextEpoch M.refines self.old self.new early.items) }
        ensures from { IfOk result (λ early. AreFrom self.new.setup.n early.items) }
        ensures later { IsLater self.old self.new }
    {
        let epoch = sum(self.epoch.0, 1)?;
        let start = self.layout.first().0 + self.setup.epoch;
        let _end = sum(start, self.setup.epoch)?;
        self.close(alloc)?;
        self.open(alloc, Epoch(epoch), start)?;
        Ok(mem::replace(&mut self.early, Vec::new(alloc)))
    }

    // Tells the leader policy which slots of the epoch are nil, and moves the clients' windows on.
    // rule: Epochs: The policy reads the nil slots of an epoch before the next one is divided
    // rule: Epochs: Windows move at the end of an epoch
    fn close(&mut self, alloc: Global) -> Result<(), NoMemory>
        ensures closed { OnOk result (HasClosed self.old self.new) }
        ensures rest { self.new ≡ record self.old { standing = self.new.standing; windows = self.new.windows } }
    {
        let nils = nil_slots(alloc, &self.log, self.layout.first().0, self.setup.epoch)?;
        self.standing
            .advance(&self.setup, &self.layout, nils.as_slice());
        note_all(&mut self.windows, self.logged.as_slice())?;
        self.windows.close_epoch();
        Ok(())
    }

    // Starts an epoch with fresh instances.
    fn open(&mut self, alloc: Global, epoch: Epoch, start: u64) -> Result<(), NoMemory>
        requires { start + self.old.setup.epoch < 2 ^ 64 }
        ensures opened { OnOk result (HasOpened M.refines self.old self.new epoch.0 start) }
        ensures later { IsLater self.old self.new }
    {
        let layout = Layout::of(&self.setup, epoch, start, &self.standing);
        let segments = start_segments::<M>(
            alloc,
            &self.setup,
            &self.directory,
            epoch,
            &layout,
            self.me,
        )?;
        self.epoch = epoch;
        self.layout = layout;
        self.segments = segments;
        self.accepted = Vec::new(alloc);
        self.logged = Ids::new(alloc);
        Ok(())
    }
}

// The nil slots among `count` slots from `first` on, ascending.
fn nil_slots(alloc: Global, log: &Log, first: u64, count: u64) -> Result<Seq<Slot>, NoMemory>
    requires { first + count < 2 ^ 64 }
    ensures { IfOk result (λ nils. nils ≡ filter (λ s. is_nil_at (reverse log.now.entries) s.0)
        (slots_from first count)) }
{
    let mut nils = Seq::new(alloc);
    for k in 0..count {
        let slot = Slot(first + k);
        if is_nil(log, slot) {
            nils.push(slot)?;
        }
    }
    Ok(nils)
}

fn note_all(windows: &mut Windows, ids: &[ReqId]) -> Result<(), NoMemory>
    ensures noted { OnOk result ((n : Noted) → RefinesNoted windows.old n →
        RefinesNoted windows.new (notes n ids.now)) }
    ensures width { windows.new.width ≡ windows.old.width }
{
    for id in ids {
        windows.note(*id)?;
    }
    Ok(())
}

// The outcome of a step, which is empty if the event was dropped.
fn or_nothing(alloc: Global, step: StepResult) -> Outcome
    ensures { result ≡ or_nothing step }
{
    match step {
        Ok(outcome) => outcome,
        Err(_) => Outcome::nothing(alloc),
    }
}

// The outcome with these claims of early messages.
fn with_early(outcome: Outcome, claims: Seq<Claim>) -> Outcome
    ensures { result ≡ record outcome { early = claims } }
{
    let Outcome {
        sends,
        own,
        hashed,
        entered,
        ..
    } = outcome;
    Outcome {
        sends,
        own,
        early: claims,
        hashed,
        entered,
    }
}

// Appends a later outcome.
fn append_outcome(all: &mut Outcome, more: Outcome) -> Result<(), NoMemory>
    ensures { OnOk result (all.new ≡ appended all.old more) }
{
    append(&mut all.sends, more.sends)?;
    append(&mut all.own, more.own)?;
    append(&mut all.early, more.early)?;
    append(&mut all.hashed, more.hashed)?;
    if let Some(bytes) = more.entered {
        all.entered = Some(bytes);
    }
    Ok(())
}

fn append<T: Drop>(row: &mut Seq<T>, more: Seq<T>) -> Result<(), NoMemory>
    ensures { OnOk result (row.new ≡ row.old ++ more) }
{
    for thing in more.into_vec() {
        row.push(thing)?;
    }
    Ok(())
}
