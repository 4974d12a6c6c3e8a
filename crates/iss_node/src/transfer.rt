//! State transfer: how a node asks for an epoch, hands one out, and adopts one (ISS: state transfer).
ghost use Rattle.std.specs.Prelude.{◌≡◌, ◌<◌, ◌≤◌, ◌+◌, ◌^◌, ◌∷◌, [], None, IfOk, List, drop, length, take};
ghost use Rattle.iss_checkpoint.specs.Votes.{voters_of};
ghost use Rattle.iss_log.specs.Chains.{IsChainOf};
ghost use Rattle.iss_rules.specs.Votes.{cert_on};
ghost use Rattle.iss_model.specs.Node.{asking, hands_out, Taken as Step_taken, takes_piece};
ghost use Rattle.iss_node.specs.Internal.Ready.{MayAdopt, RefinesSome};
ghost use Rattle.iss_node.specs.Internal.Transfers.{IsAdoptedBy, IsHandedPiece, at_slots, held_slots, held_values};
ghost use Rattle.iss_request.specs.declared.requests.Value.{Value as LogValue};
ghost use Rattle.iss_transfer.specs.Adoption.{adoption};
ghost use Rattle.iss_node.specs.Steps.{IsHeldStepOf, IsOfNodes, IsSameNode};

use crate::answers::{Outcome, StepResult};
use crate::claims::put_own;
use crate::state::NodeState;
use iss_ballots::{claims_of_cert, copy_of_cert, pack_ask, pack_piece};
use iss_checkpoint::Cert;
use iss_request::{Bytes, Epoch, NoMemory, NodeId, Seq, Slot, Value};
use iss_rules::{NodeEvent, Why};
use iss_sb::{Sequenced, To};
use iss_transfer::{Adoption, Piece, adopt};
use std::alloc::Global;

impl<M: Sequenced> NodeState<M> {
    /// Asks `peer` for the node's current epoch.
    pub(crate) fn ask_from(&mut self, alloc: Global, peer: NodeId) -> Result<StepResult, NoMemory>
        ensures answer { IfOk result
            (λ a. IsHeldStepOf M.spec M.refines (IsOfNodes self.old.setup.n (NodeEvent.AskFrom peer)) self.old
            (λ F R me c. Step_taken (asking F me c peer)) self.new a) }
        ensures same { IsSameNode self.old self.new }
    {
        let bytes = pack_ask(alloc, self.setup.version, self.me, self.epoch)?;
        Ok(Ok(one_send(alloc, peer, bytes)?))
    }

    /// Answers an ask with the values of an epoch, if the node has its certificate and all of its slots. Otherwise
    /// drops it with `NoCert`.
    // rule: Transfer: An ask is answered to the asker alone, if the node has the epoch and its certificate
    pub(crate) fn take_ask(
        &mut self,
        alloc: Global,
        from: NodeId,
        epoch: Epoch,
    ) -> Result<StepResult, NoMemory>
        requires { from.0 < self.old.setup.n }
        ensures answer { IfOk result (λ a. IsHeldStepOf M.spec M.refines (Unit {0}) self.old
            (λ F R me c. hands_out F R M.spec me c from.0 epoch.0 (cert_on c.certs epoch.0)) self.new a) }
        ensures same { IsSameNode self.old self.new }
    {
        let Some(cert) = self.ballots.cert_at(epoch) else {
            return Ok(Err(Why::NoCert));
        };
        let cert = copy_of_cert(alloc, cert)?;
        let Some(values) = self.values_of(alloc, epoch)? else {
            return Ok(Err(Why::NoCert));
        };
        let piece = Piece {
            epoch,
            values,
            cert,
        };
        Ok(Ok(self.hand_out_piece(alloc, from, &piece)?))
    }

    // The values of an epoch, if the log has all of its slots.
    pub(crate) fn values_of(
        &self,
        alloc: Global,
        epoch: Epoch,
    ) -> Result<Option<Seq<Value>>, NoMemory>
        ensures { IfOk result (λ values. values ≡ held_values self.now epoch.0) }
    {
        let Some(slots) = self.slots_of(epoch) else {
            return Ok(None);
        };
        let values = between(self.log.entries(), slots.0, slots.1);
        Ok(Some(copies_of(alloc, values)?))
    }

    // The first slot of an epoch and the slot after its last, if the log has all of them.
    fn slots_of(&self, epoch: Epoch) -> Option<(usize, usize)>
        ensures { result ≡ held_slots self.now epoch.0 }
    {
        let held = self.log.entries().len() as u64;
        let next = epoch.0.checked_add(1)?;
        let end = next.checked_mul(self.setup.epoch)?;
        if end > held {
            return None;
        }
        Some(((end - self.setup.epoch) as usize, end as usize))
    }

    // A piece as a packet, with the node's own signature in its certificate, if there is one.
    fn hand_out_piece(&self, alloc: Global, to: NodeId, piece: &Piece) -> Result<Outcome, NoMemory>
        ensures { IfOk result (IsHandedPiece self.now to piece.now) }
    {
        let bytes = pack_piece(alloc, self.setup.version, self.me, piece)?;
        let mut outcome = one_send(alloc, to, bytes)?;
        let claims = claims_of_cert(alloc, &self.setup.tag, &piece.cert)?;
        put_own(&mut outcome.own, self.me, claims)?;
        Ok(outcome)
    }

    /// Adopts the values of the current epoch from a piece, unless it is refused. The epoch then ends without the
    /// node's vote.
    pub(crate) fn take_piece(&mut self, alloc: Global, piece: Piece) -> Result<StepResult, NoMemory>
        requires { RefinesSome M.spec M.refines self.old }
        ensures answer { IfOk result (λ a. IsHeldStepOf M.spec M.refines (Unit {0}) self.old
            (λ F R me c. takes_piece F R M.spec me c piece) self.new a) }
        ensures same { IsSameNode self.old self.new }
    {
        if piece.epoch.0 < self.epoch.0 {
            return Ok(Err(Why::NotNeeded));
        }
        match self.adoption(alloc, &piece)? {
            Adoption::WrongEpoch => Ok(Err(Why::OtherEpoch)),
            Adoption::BadCert => Ok(Err(Why::BadClaim)),
            Adoption::WrongChain { .. } => Ok(Err(Why::WrongChain)),
            Adoption::Adopt { hashed } => {
                let outcome = self.adopt(alloc, piece, hashed)?;
                Ok(Ok(outcome))
            }
        }
    }

    // Whether the node may adopt the piece. The only error is out of memory.
    fn adoption(&self, alloc: Global, piece: &Piece) -> Result<Adoption, NoMemory>
        requires { RefinesSome M.spec M.refines self.now }
        ensures { IfOk result (λ a. (log : List LogValue) → IsChainOf self.now.chains log →
            a ≡ adoption self.now.setup (voters_of self.now.setup self.now.directory) log self.now.epoch piece.now) }
    {
        let directory = self.directory.directory();
        adopt(
            alloc,
            &self.setup,
            directory,
            &self.chains,
            self.epoch,
            piece,
        )
    }

    // Adopts a piece: its values fill the slots that have none, and its certificate is kept. The next epoch starts,
    // with the messages that arrived early for it.
    // rule: Transfer: An adopted piece of the own epoch fills the empty slots and ends the epoch without a vote
    // rule: Persistence: A snapshot is of the node as it enters an epoch, with the early messages that it takes next
    fn adopt(
        &mut self,
        alloc: Global,
        piece: Piece,
        hashed: Seq<Bytes>,
    ) -> Result<Outcome, NoMemory>
        requires { MayAdopt M.spec M.refines self.old piece hashed }
        ensures adopted { IfOk result (λ o. IsAdoptedBy M.spec M.refines self.old piece hashed self.new o) }
        ensures same { IsSameNode self.old self.new }
    {
        let Piece { values, cert, .. } = piece;
        let mut strings = hashed;
        let delivers = at_slots(alloc, self.layout.first(), values)?;
        self.apply_deliveries(alloc, delivers, &mut strings)?;
        self.ballots.keep(cert)?;
        let early = self.next_epoch(alloc)?;
        let bytes = self.entry(alloc, early.as_slice())?;
        let mut outcome = Outcome::nothing(alloc);
        outcome.hashed = strings;
        outcome.entered = Some(bytes);
        self.take_each(alloc, outcome, early)
    }
}

// The values from index `first` up to, but not including, `end`.
fn between(values: &[Value], first: usize, end: usize) -> &[Value]
    requires ascending { first ≤ end }
    requires within { end ≤ length values.now }
    ensures { result.now ≡ drop first (take end values.now) }
{
    &values[first..end]
}

fn copies_of(alloc: Global, values: &[Value]) -> Result<Seq<Value>, NoMemory>
    ensures { IfOk result (λ row. row ≡ values.now) }
{
    let mut copies = Seq::new(alloc);
    for value in values {
        copies.push(value.copy()?)?;
    }
    Ok(copies)
}

// Values with their slots, which are consecutive from `first` on.
pub(crate) fn at_slots(
    alloc: Global,
    first: Slot,
    values: Seq<Value>,
) -> Result<Vec<(Slot, Value)>, NoMemory>
    requires { first.0 + length values < 2 ^ 64 }
    ensures { IfOk result (λ ds. ds.items ≡ at_slots first.0 values) }
{
    let mut delivers = Vec::new(alloc);
    let mut next = first.0;
    for value in values.into_vec() {
        delivers.push((Slot(next), value))?;
        next += 1;
    }
    Ok(delivers)
}

// An outcome that sends one packet to one node.
fn one_send(alloc: Global, to: NodeId, bytes: Bytes) -> Result<Outcome, NoMemory>
    ensures { IfOk result (λ o. o ≡
        record { sends = (To.One to, bytes) ∷ []; own = []; early = []; hashed = []; entered = None }) }
{
    let mut outcome = Outcome::nothing(alloc);
    outcome.sends.push((To::One(to), bytes))?;
    Ok(outcome)
}
