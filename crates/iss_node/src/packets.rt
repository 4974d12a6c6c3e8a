//! The packets that a node receives.
ghost use Rattle.std.specs.Prelude.{◌≡◌, ◌<◌, ◌==◌, suc, IfOk, Some};
ghost use Rattle.iss_rules.specs.Concrete.{rules_of};
ghost use Rattle.iss_model.specs.Node.{Core, finish_step, keeps_early, takes_bytes, takes_message, takes_parcel, try_step};
ghost use Rattle.iss_model.specs.Views.{claims_of_bytes, claims_of_parcel};
ghost use Rattle.iss_model.specs.Frames.{claims_of_bytes_in, frame_of};
ghost use Rattle.iss_node.specs.Internal.Parcels.{IsFromNode, seen_body, seen_some};
ghost use Rattle.iss_node.specs.Internal.Ready.{MayTake, RefinesSome};
ghost use Rattle.iss_node.specs.State.{RefinesPast, seen_one};
ghost use Rattle.iss_node.specs.Steps.{IsHeldStepOf, IsLater, IsSameNode, IsStepOf};

use crate::answers::{Early, Outcome, StepResult};
use crate::parcels::{Body, Parcel, unwrap};
use crate::state::NodeState;
use iss_ballots::{claim_of_vote, claims_of_cert};
use iss_request::{Bytes, Epoch, NoMemory, NodeId, Seq};
use iss_rules::Why;
use iss_sb::{Claim, Input, Sequenced};
use std::alloc::Global;

/// How many messages of the next epoch a node keeps.
const EARLY_MOST: usize = 256;

impl<M: Sequenced> NodeState<M> {
    /// Takes received bytes.
    pub(crate) fn take_bytes(
        &mut self,
        alloc: Global,
        bytes: &Bytes,
    ) -> Result<StepResult, NoMemory>
        requires { RefinesSome M.spec M.refines self.old }
        ensures answer { IfOk result (λ a. IsHeldStepOf M.spec M.refines (Unit {0}) self.old
            (λ F R me c. takes_bytes F R M.spec me c (F.unwrap bytes.now)) self.new a) }
        ensures same { IsSameNode self.old self.new }
    {
        match unwrap::<M>(alloc, &self.setup, bytes)? {
            Some(parcel) => self.take_parcel(alloc, parcel),
            None => Ok(Err(Why::NotPacket)),
        }
    }

    /// The signatures that received bytes claim.
    // rule: Evidence: The claims of a packet are all signatures of its vote, certificate or message
    pub(crate) fn claims_of_bytes(
        &self,
        alloc: Global,
        bytes: &Bytes,
    ) -> Result<Seq<Claim>, NoMemory>
        ensures { IfOk result (λ claims. (c : Core M.Msg) → RefinesPast M.spec M.refines self.now c.past →
            claims ≡ claims_of_bytes_in (frame_of self.now.setup M.spec) self.now.me.0 c bytes.now) }
    {
        match unwrap::<M>(alloc, &self.setup, bytes)? {
            Some(parcel) => self.claims_of_parcel(alloc, &parcel),
            None => Ok(Seq::new(alloc)),
        }
    }

    // The signatures that the content of a packet claims. A module's message is read only if it belongs to the current
    // epoch.
    fn claims_of_parcel(
        &self,
        alloc: Global,
        parcel: &Parcel<M::Msg>,
    ) -> Result<Seq<Claim>, NoMemory>
        requires { IsFromNode self.now.setup.n parcel.now }
        ensures { IfOk result (λ claims. (c : Core M.Msg) → RefinesPast M.spec M.refines self.now c.past →
            claims ≡ claims_of_parcel (rules_of self.now.setup) M.spec self.now.me.0 c (Some (seen_some parcel.now))) }
    {
        match &parcel.body {
            Body::Message { leader, msg } => {
                if parcel.epoch.0 != self.epoch.0 {
                    return Ok(Seq::new(alloc));
                }
                self.claims_in(alloc, *leader, parcel.from, msg)
            }
            Body::Vote(vote) => {
                let mut claims = Seq::new(alloc);
                claims.push(claim_of_vote(alloc, &self.setup.tag, vote)?)?;
                Ok(claims)
            }
            Body::Piece(piece) => claims_of_cert(alloc, &self.setup.tag, &piece.cert),
            Body::Ask | Body::Request(_) => Ok(Seq::new(alloc)),
        }
    }

    // Takes the content of a packet.
    fn take_parcel(&mut self, alloc: Global, parcel: Parcel<M::Msg>) -> Result<StepResult, NoMemory>
        requires from { IsFromNode self.old.setup.n parcel }
        requires refined { RefinesSome M.spec M.refines self.old }
        ensures answer { IfOk result (λ a. IsHeldStepOf M.spec M.refines (Unit {0}) self.old
            (λ F R me c. takes_parcel F R M.spec me c parcel.from.0 parcel.epoch.0 (seen_body parcel.body))
            self.new a) }
        ensures same { IsSameNode self.old self.new }
    {
        let Parcel { from, epoch, body } = parcel;
        match body {
            Body::Request(request) => self.take_request(alloc, request),
            Body::Message { leader, msg } => {
                self.take_message(alloc, epoch, Early { from, leader, msg })
            }
            Body::Vote(vote) => self.take_vote(alloc, vote),
            Body::Ask => self.take_ask(alloc, from, epoch),
            Body::Piece(piece) => self.take_piece(alloc, piece),
        }
    }

    // Takes a module's message: at once if it belongs to the current epoch, later if to the next one.
    fn take_message(
        &mut self,
        alloc: Global,
        epoch: Epoch,
        message: Early<M::Msg>,
    ) -> Result<StepResult, NoMemory>
        requires { MayTake M.spec M.refines self.old message.from.0 }
        ensures answer { IfOk result (λ a. IsStepOf M.spec M.refines self.old
            (λ F R me c. takes_message F R M.spec me c message.from.0 epoch.0 message.leader.0 message.msg)
            self.new a) }
        ensures later { IsLater self.old self.new }
    {
        if epoch.0 == self.epoch.0 {
            return self.take_now(alloc, message);
        }
        if is_next(self.epoch, epoch) {
            return self.keep_early(alloc, message);
        }
        Ok(Err(Why::OtherEpoch))
    }

    // Takes a module's message of the current epoch.
    fn take_now(&mut self, alloc: Global, message: Early<M::Msg>) -> Result<StepResult, NoMemory>
        requires { MayTake M.spec M.refines self.old message.from.0 }
        ensures answer { IfOk result (λ a. IsStepOf M.spec M.refines self.old
            (λ F R me c. finish_step F R M.spec me
            (try_step F R M.spec me c message.leader.0 (Input.Receive message.from message.msg))) self.new a) }
        ensures later { IsLater self.old self.new }
    {
        let Early { from, leader, msg } = message;
        let claims = self.claims_in(alloc, leader, from, &msg)?;
        let input = Input::Receive { from, msg };
        let step = self.try_step(alloc, leader, input, claims.as_slice())?;
        self.finish_step(alloc, step)
    }

    // Keeps a message of the next epoch, unless `EARLY_MOST` are already kept.
    // rule: Epochs: A message of the next epoch is kept for it, up to a fixed number of them
    fn keep_early(&mut self, alloc: Global, message: Early<M::Msg>) -> Result<StepResult, NoMemory>
        requires { message.from.0 < self.old.setup.n }
        ensures answer { IfOk result
            (λ a. IsStepOf M.spec M.refines self.old (λ F R me c. keeps_early c (seen_one message)) self.new a) }
        ensures later { IsLater self.old self.new }
    {
        if self.early.len() >= EARLY_MOST {
            return Ok(Err(Why::EarlyFull));
        }
        self.early.push(message)?;
        Ok(Ok(Outcome::nothing(alloc)))
    }
}

// Whether `other` is the epoch after `epoch`.
fn is_next(epoch: Epoch, other: Epoch) -> bool
    ensures { result ≡ (other.0 == suc epoch.0) }
{
    epoch.0 < other.0 && other.0 - epoch.0 == 1
}
