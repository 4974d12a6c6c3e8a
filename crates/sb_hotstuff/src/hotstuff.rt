//! A replica's part in an instance of HotStuff, as an ordering module (ISS: Sequenced Broadcast).
ghost use Rattle.std.specs.Prelude.{◌≡◌, ◌≤◌, ℕ, List, IfOk, None, if◌then◌else◌};
ghost use Rattle.iss_keys.specs.KeyStates.{left_of};
ghost use Rattle.iss_request.specs.declared.ids.Slot.{Slot};
ghost use Rattle.iss_request.specs.declared.requests.Batch.{Batch};
ghost use Rattle.iss_sb.specs.Calls.{IsGoodInput, IsGoodParams, IsTrueStep, named};
ghost use Rattle.hs_tree.specs.declared.messages.Body.TheVariants.{Prepare, Decide};
ghost use Rattle.hs_tree.specs.Messages.{signed};
ghost use Rattle.hs_views.specs.Accepted.{AreAccepted};
ghost use Rattle.sb_hotstuff.specs.HotStuff.{asked_by, hotstuff, offered};
ghost use Rattle.sb_hotstuff.specs.Internal.Instances.{Refines, Takes};
ghost use Rattle.sb_hotstuff.specs.Rules.{State, may_prepare};
ghost use Rattle.sb_hotstuff.specs.Refines.{RefinesState};

use crate::accepting::{cast_slot, offered_slot};
use crate::outcomes::{Outcome, Taken};
use crate::state::{Node, PHASES};
use hs_tree::{Body, Certificate, Message, Poll, Protocol, claims};
use hs_views::{Accepted, Proposal, SignedVote, keep_at, keep_what, pair};
use iss_keys::Keys;
use iss_request::{
    Batch, DecodeError, Fields, Kind, NoMemory, NodeId, Seq, Slot, Writer, nodes_of_kind, quorum,
};
use iss_sb::{Claim, Content, Effects, Input, Params, Sequenced, asks_if};
use sb_context::{Context, Modelled};
use std::alloc::Global;

/// A replica's part in one instance: the protocol's state, the batches that it accepted, and how many slots of the
/// segment it delivered.
#[derive(Drop)]
pub struct HotStuff {
    pub(crate) node: Node,
    pub(crate) accepted: Accepted,
    pub(crate) delivered: usize,
}

impl HotStuff {
    // The batch that the replica would accept with a proposal, with its slot: if the proposal is valid and the batch
    // was not accepted there before.
    fn offered<'a>(
        &'a self,
        p: &Params,
        from: NodeId,
        view: u32,
        what: &'a Content,
        just: &'a Certificate,
    ) -> Option<(Slot, &'a Batch)>
        requires { IsGoodParams hotstuff p.now }
        ensures { (s : State) (old : List (Slot × Batch)) → RefinesState self.now.node s →
            AreAccepted self.now.accepted old →
            named result ≡ (if may_prepare p.now s from.0 view what.now just.now
            then offered p.now s old what.now just.now else None) }
    {
        if !self.node.may_prepare(p, from, view, what, just) {
            return None;
        }
        let Some(slot) = offered_slot(&self.node, &self.accepted, p, what, just) else {
            return None;
        };
        let Content::Holds(batch) = what else {
            return None;
        };
        Some((slot, batch))
    }

    // The batch that the replica would accept with a message, with its slot.
    fn asked<'a>(&'a self, p: &Params, from: NodeId, msg: &'a Message) -> Option<(Slot, &'a Batch)>
        requires { IsGoodParams hotstuff p.now }
        ensures { (s : State) (old : List (Slot × Batch)) → RefinesState self.now.node s →
            AreAccepted self.now.accepted old →
            named result ≡ asked_by p.now s old from.0 msg.now.body }
    {
        match &msg.body {
            Body::Prepare { view, what, just } => self.offered(p, from, *view, what, just),
            _ => None,
        }
    }

    // Takes a cast: accepts its batch, and proposes it at once if the last turn is complete.
    fn accept_cast(
        &mut self,
        context: &Context<HotStuff>,
        slot: Slot,
        batch: Batch,
    ) -> Result<Taken, NoMemory>
        ensures { IfOk result (λ t. Takes context.now.p.now self.old self.new (Input.Cast slot batch) t) }
    {
        let free = cast_slot(&self.node, context.p, slot);
        let accepted = keep_at(&mut self.accepted, context.alloc, free, &batch)?;
        let outcome = self.node.queue_cast(context, slot, batch)?;
        let delivers = Seq::new(context.alloc);
        Ok(Taken {
            outcome,
            accepted,
            delivers,
        })
    }

    // Takes a proposal, if it is valid: accepts its batch and casts a prepare vote.
    fn accept_proposal(
        &mut self,
        context: &Context<HotStuff>,
        from: NodeId,
        proposal: Proposal,
    ) -> Result<Taken, NoMemory>
        ensures { IfOk result (λ t. (sig : List ℕ) → Takes context.now.p.now self.old self.new
            (Input.Receive from (signed (Prepare proposal.view proposal.what proposal.just) sig)) t) }
    {
        let view = proposal.view;
        let what = proposal.what;
        let just = proposal.just;
        if !self.node.may_prepare(context.p, from, view, &what, &just) {
            return Ok(Taken::of(context.alloc, Outcome::nothing(context.alloc)));
        }
        let slot = offered_slot(&self.node, &self.accepted, context.p, &what, &just);
        let accepted = keep_what(&mut self.accepted, context.alloc, slot, &what)?;
        let outcome = self.node.vote_prepare(context, view, what, &just)?;
        let delivers = Seq::new(context.alloc);
        Ok(Taken {
            outcome,
            accepted,
            delivers,
        })
    }

    // Takes a Decide. A valid commitQC of a known node delivers the slots of its branch that are not yet delivered.
    // rule: HotStuff: A certificate of the third phase delivers its node's branch, each slot once
    // rule: Modules: A step delivers exactly what the module's definition delivers
    fn deliver(
        &mut self,
        context: &Context<HotStuff>,
        view: u32,
        shown: Certificate,
    ) -> Result<Taken, NoMemory>
        ensures { IfOk result (λ t. (from : NodeId) (sig : List ℕ) →
            Takes context.now.p.now self.old self.new (Input.Receive from (signed (Decide view shown) sig)) t) }
    {
        let mut taken = Taken::of(context.alloc, Outcome::nothing(context.alloc));
        if !self.node.may_deliver(context.p, view, &shown) {
            return Ok(taken);
        }
        let digest = shown.digest();
        let values = self
            .node
            .tree
            .behind(context.alloc, &digest, self.delivered)?;
        taken.delivers = pair(
            context.alloc,
            context.p.slots.as_slice(),
            self.delivered,
            values.into_vec(),
        )?;
        let slots = self.node.tree.slots(&digest);
        if slots <= self.delivered {
            return Ok(taken);
        }
        self.delivered = slots;
        Ok(taken)
    }

    // Takes a message.
    fn receive(
        &mut self,
        context: &Context<HotStuff>,
        from: NodeId,
        msg: Message,
    ) -> Result<Taken, NoMemory>
        ensures { IfOk result (λ t. Takes context.now.p.now self.old self.new (Input.Receive from msg) t) }
    {
        let sig = msg.sig;
        let body = msg.body;
        match body {
            Body::NewView { round, high } => {
                let outcome = self.node.count_new_view(context, from, round, high)?;
                Ok(Taken::of(context.alloc, outcome))
            }
            Body::Prepare { view, what, just } => self.accept_proposal(
                context,
                from,
                Proposal { view, what, just },
            ),
            Body::PreCommit { view, shown } => {
                let outcome = self.node.vote_pre_commit(context, view, shown)?;
                Ok(Taken::of(context.alloc, outcome))
            }
            Body::Commit { view, shown } => {
                let outcome = self.node.vote_commit(context, view, shown)?;
                Ok(Taken::of(context.alloc, outcome))
            }
            Body::Decide { view, shown } => self.deliver(context, view, shown),
            Body::Vote {
                phase,
                view,
                digest,
            } => {
                let poll = Poll {
                    phase,
                    view,
                    digest,
                };
                let vote = SignedVote { poll, sig };
                let outcome = self.node.count_vote(context, from, vote)?;
                Ok(Taken::of(context.alloc, outcome))
            }
        }
    }

    // Takes an input.
    fn take(&mut self, context: &Context<HotStuff>, i: Input<Message>) -> Result<Taken, NoMemory>
        ensures { IfOk result (λ t. Takes context.now.p.now self.old self.new i t) }
    {
        match i {
            Input::Cast { slot, batch } => self.accept_cast(context, slot, batch),
            Input::Receive { from, msg } => self.receive(context, from, msg),
            Input::Timeout => {
                let outcome = self.node.enter_next_round(context)?;
                Ok(Taken::of(context.alloc, outcome))
            }
        }
    }
}

impl Modelled for HotStuff {
    type Msg = Message;

    ghost spec = { hotstuff };
}

impl Sequenced for HotStuff {
    type Msg = Message;

    const TAG: u8 = 4;

    const STOPPING: bool = false;

    ghost use Rattle.std.specs.Prelude.{false};

    ghost TAG = { 4 };

    ghost STOPPING = { false };

    ghost spec = { hotstuff };

    ghost refines = { Refines };

    fn nodes_of(f: u32) -> u32 {
        nodes_of_kind(Kind::Byzantine, f)
    }

    fn quorum_of(f: u32) -> u32 {
        quorum(Kind::Byzantine, f)
    }

    fn signs(_p: &Params) -> u32 {
        2
    }

    fn start(alloc: Global, _p: &Params, me: NodeId) -> Result<HotStuff, NoMemory> {
        Ok(HotStuff {
            node: Node::start(alloc, me),
            accepted: Accepted::new(alloc),
            delivered: 0,
        })
    }

    fn casts(&self, p: &Params, slot: Slot) -> bool {
        self.node.may_cast(p, slot)
    }

    fn asks<'a>(&'a self, p: &Params, i: &'a Input<Message>) -> Option<(Slot, &'a Batch)> {
        match i {
            Input::Cast { slot, batch } => asks_if(self.node.may_cast(p, *slot), *slot, batch),
            Input::Receive { from, msg } => self.asked(p, *from, msg),
            Input::Timeout => None,
        }
    }

    fn apply(
        &mut self,
        alloc: Global,
        p: &Params,
        i: Input<Message>,
        keys: &mut Keys,
    ) -> Result<Effects<Message>, NoMemory>
        requires good { IsGoodParams hotstuff p.now }
        requires input { IsGoodInput p.now i }
        requires enough { hotstuff.signs p.now ≤ left_of keys.old }
        ensures { IfOk result (λ e. IsTrueStep hotstuff Refines p.now self.old self.new i keys.old keys.new e) }
    {
        let context = Context::of(alloc, p);
        let taken = self.take(&context, i)?;
        taken.sign(&context, keys)
    }

    fn encode(m: &Message, out: &mut Writer) -> Result<(), NoMemory> {
        hs_tree::write(PHASES, m, out)
    }

    fn decode(alloc: Global, f: &mut Fields) -> Result<Message, DecodeError> {
        hs_tree::read(alloc, PHASES, f)
    }

    fn claims(
        alloc: Global,
        p: &Params,
        from: NodeId,
        m: &Message,
    ) -> Result<Seq<Claim>, NoMemory> {
        claims(alloc, Protocol::Basic, p, from, m)
    }

    fn laws() {}
}
