//! A replica's part in an instance of chained HotStuff, as an ordering module (ISS: Sequenced Broadcast).
ghost use Rattle.std.specs.Prelude.{◌≡◌, ◌≤◌, ℕ, List, Some, IfOk, OnOk, None, if◌then◌else◌};
ghost use Rattle.iss_keys.specs.KeyStates.{left_of};
ghost use Rattle.iss_request.specs.declared.ids.NodeId.{NodeId};
ghost use Rattle.iss_request.specs.declared.ids.Slot.{Slot};
ghost use Rattle.iss_request.specs.declared.requests.Batch.{Batch};
ghost use Rattle.iss_sb.specs.Calls.{AllIn, IsGoodInput, IsGoodParams, IsTrueStep, named, slots_of};
ghost use Rattle.hs_tree.specs.declared.messages.Body.TheVariants.{NewView, Prepare, Vote};
ghost use Rattle.hs_tree.specs.Messages.{signed};
ghost use Rattle.hs_views.specs.Accepted.{AreAccepted};
ghost use Rattle.sb_chained.specs.Chained.{asked_by, chained, offered};
ghost use Rattle.sb_chained.specs.Internal.Instances.{IsDeciding, IsShown, Refines, Takes};
ghost use Rattle.sb_chained.specs.Links.{digest_at};
ghost use Rattle.sb_chained.specs.Rules.{State, committed_by, may_prepare};
ghost use Rattle.sb_chained.specs.Refines.{RefinesState};

use crate::accepting::{cast_slot, offered_slot};
use crate::outcomes::{Outcome, Taken};
use crate::state::{Node, PHASE};
use hs_tree::{Body, Certificate, Message, Poll, Protocol, claims};
use hs_views::{Accepted, Proposal, SignedVote, keep_at, keep_what, pair};
use iss_keys::Keys;
use iss_request::{
    Batch, DecodeError, Fields, Kind, NoMemory, NodeId, Seq, Slot, Value, Writer, nodes_of_kind,
    quorum,
};
use iss_sb::{Claim, Content, Effects, Input, Params, Sequenced, asks_if};
use sb_context::{Context, Modelled};
use std::alloc::Global;

/// A replica's part in one instance: the protocol's state, the batches that it accepted, and how many slots of the
/// segment it delivered.
#[derive(Drop)]
pub struct Chained {
    pub(crate) node: Node,
    pub(crate) accepted: Accepted,
    pub(crate) delivered: usize,
}

impl Chained {
    // The batch that the replica would accept with a proposal, with its slot: if the proposal is valid and the batch
    // was not accepted there before.
    fn offered<'a>(
        &'a self,
        p: &Params,
        from: NodeId,
        view: u32,
        what: &'a Content,
        just: &'a Certificate,
    ) -> Option<(Slot, &'a Batch)>
        requires { IsGoodParams chained p.now }
        ensures { (s : State) (old : List (Slot × Batch)) → RefinesState p.now self.now.node s →
            AreAccepted self.now.accepted old →
            named result ≡ (if may_prepare p.now s from.0 view what.now just.now
            then offered p.now s old what.now just.now else None) }
    {
        if !self.node.may_prepare(p, from, view, what, just) {
            return None;
        }
        let Some(slot) = offered_slot(&self.node, &self.accepted, p, what, just) else {
            return None;
        };
        let Content::Holds(batch) = what else {
            return None;
        };
        Some((slot, batch))
    }

    // The batch that the replica would accept with a message, with its slot.
    fn asked<'a>(&'a self, p: &Params, from: NodeId, msg: &'a Message) -> Option<(Slot, &'a Batch)>
        requires { IsGoodParams chained p.now }
        ensures { (s : State) (old : List (Slot × Batch)) → RefinesState p.now self.now.node s →
            AreAccepted self.now.accepted old →
            named result ≡ asked_by p.now s old from.0 msg.now.body }
    {
        match &msg.body {
            Body::Prepare { view, what, just } => self.offered(p, from, *view, what, just),
            _ => None,
        }
    }

    // Delivers the slots of a decided node's branch that are not yet delivered. The only error is out of memory.
    // rule: Modules: A step delivers exactly what the module's definition delivers
    fn deliver(
        &mut self,
        context: &Context<Chained>,
        decided: Option<[u8; 32]>,
    ) -> Result<Seq<(Slot, Value)>, NoMemory>
        ensures inside { IfOk result (λ ds. AllIn (slots_of ds) context.now.p.now.slots) }
        ensures delivers { IfOk result (λ ds. IsDeciding context.now.p.now self.old self.new decided ds) }
    {
        let Some(digest) = decided else {
            return Ok(Seq::new(context.alloc));
        };
        let values = self
            .node
            .nodes
            .tree
            .behind(context.alloc, &digest, self.delivered)?;
        let delivers = pair(
            context.alloc,
            context.p.slots.as_slice(),
            self.delivered,
            values.into_vec(),
        )?;
        let slots = self.node.nodes.tree.slots(&digest);
        if slots <= self.delivered {
            return Ok(delivers);
        }
        self.delivered = slots;
        Ok(delivers)
    }

    // The node whose branch the certificate decides.
    fn decided(&self, p: &Params, shown: &Certificate) -> Option<[u8; 32]>
        ensures { (k : State) → RefinesState p.now self.now.node k →
            result ≡ digest_at (committed_by k (Some shown.now)) }
    {
        match shown {
            Certificate::Root => None,
            Certificate::Votes { digest, .. } => self.node.nodes.committed(digest),
        }
    }

    // Takes a certificate of a known node: it may decide a branch, and raise the highest certificate and the lock. The
    // only error is out of memory.
    fn show(
        &mut self,
        context: &Context<Chained>,
        shown: Certificate,
    ) -> Result<Seq<(Slot, Value)>, NoMemory>
        ensures inside { IfOk result (λ ds. AllIn (slots_of ds) context.now.p.now.slots) }
        ensures accepted { OnOk result (self.new.accepted ≡ self.old.accepted) }
        ensures shown { IfOk result (λ ds. (k : State) → RefinesState context.now.p.now self.old.node k →
            IsShown context.now.p.now self.old self.new k (Some shown) ds) }
    {
        let decided = self.decided(context.p, &shown);
        let delivers = self.deliver(context, decided)?;
        self.node.note(context.p, shown);
        Ok(delivers)
    }

    // The leader takes a cast. It proposes the batch at once if its last turn is certified.
    fn cast(
        &mut self,
        context: &Context<Chained>,
        slot: Slot,
        batch: Batch,
    ) -> Result<Taken, NoMemory>
        ensures { IfOk result (λ t. Takes context.now.p.now self.old self.new (Input.Cast slot batch) t) }
    {
        let free = cast_slot(&self.node, context.p, slot);
        let accepted = keep_at(&mut self.accepted, context.alloc, free, &batch)?;
        let outcome = self.node.take_cast(context, slot, batch)?;
        let delivers = Seq::new(context.alloc);
        Ok(Taken {
            outcome,
            accepted,
            delivers,
        })
    }

    // Takes a proposal, if it is valid: accepts its batch and votes. Its justification counts even if it is not taken.
    fn prepare(
        &mut self,
        context: &Context<Chained>,
        from: NodeId,
        proposal: Proposal,
    ) -> Result<Taken, NoMemory>
        ensures { IfOk result (λ t. (sig : List ℕ) → Takes context.now.p.now self.old self.new
            (Input.Receive from (signed (Prepare proposal.view proposal.what proposal.just) sig)) t) }
    {
        let view = proposal.view;
        let what = proposal.what;
        let just = proposal.just;
        if !self.node.is_usable(context.p, from, view, &just) {
            return Ok(Taken::of(context.alloc, Outcome::nothing(context.alloc)));
        }
        if !self.node.may_prepare(context.p, from, view, &what, &just) {
            let delivers = self.show(context, just)?;
            return Ok(Taken {
                outcome: Outcome::nothing(context.alloc),
                accepted: None,
                delivers,
            });
        }
        let slot = offered_slot(&self.node, &self.accepted, context.p, &what, &just);
        let accepted = keep_what(&mut self.accepted, context.alloc, slot, &what)?;
        let outcome = self.node.take_node(context, view, what, &just)?;
        let delivers = self.show(context, just)?;
        Ok(Taken {
            outcome,
            accepted,
            delivers,
        })
    }

    // Takes a vote for one of the leader's own turns. A quorum of them certifies the turn, and the next one follows.
    fn vote(
        &mut self,
        context: &Context<Chained>,
        from: NodeId,
        vote: SignedVote,
    ) -> Result<Taken, NoMemory>
        ensures { IfOk result (λ t. Takes context.now.p.now self.old self.new
            (Input.Receive from (signed (Vote vote.poll.phase vote.poll.view vote.poll.digest) vote.sig)) t) }
    {
        let view = vote.poll.view;
        let digest = vote.poll.digest;
        if !self.node.keeps_vote(context, from, &vote.poll) {
            return Ok(Taken::of(context.alloc, Outcome::nothing(context.alloc)));
        }
        let poll = Poll {
            phase: PHASE,
            view,
            digest,
        };
        self.node.votes.keep(from.0, poll, vote.sig)?;
        if !self.node.is_reached(context, view, &digest) {
            return Ok(Taken::of(context.alloc, Outcome::nothing(context.alloc)));
        }
        let n = context.p.setup.n as u8;
        let shown = self.node.votes.certificate(context.alloc, n, &poll)?;
        let delivers = self.show(context, shown)?;
        let outcome = self.node.next(context)?;
        Ok(Taken {
            outcome,
            accepted: None,
            delivers,
        })
    }

    // Takes a NewView. A quorum of them makes the round's leader propose.
    fn new_view(
        &mut self,
        context: &Context<Chained>,
        from: NodeId,
        round: u16,
        high: Certificate,
    ) -> Result<Taken, NoMemory>
        ensures { IfOk result (λ t. (sig : List ℕ) →
            Takes context.now.p.now self.old self.new (Input.Receive from (signed (NewView round high) sig)) t) }
    {
        if round == 0 {
            return Ok(Taken::of(context.alloc, Outcome::nothing(context.alloc)));
        }
        if !self.node.keeps_news(context, from, round, &high) {
            return Ok(Taken::of(context.alloc, Outcome::nothing(context.alloc)));
        }
        self.node.news.keep(from.0, round, high)?;
        let Some(best) = self.node.best(context, round)? else {
            return Ok(Taken::of(context.alloc, Outcome::nothing(context.alloc)));
        };
        let just = best.copy(context.alloc)?;
        let delivers = self.show(context, best)?;
        let outcome = self.node.first(context, round, just)?;
        Ok(Taken {
            outcome,
            accepted: None,
            delivers,
        })
    }

    // Takes a message.
    fn receive(
        &mut self,
        context: &Context<Chained>,
        from: NodeId,
        msg: Message,
    ) -> Result<Taken, NoMemory>
        ensures { IfOk result (λ t. Takes context.now.p.now self.old self.new (Input.Receive from msg) t) }
    {
        let sig = msg.sig;
        let body = msg.body;
        match body {
            Body::NewView { round, high } => self.new_view(context, from, round, high),
            Body::Prepare { view, what, just } => self.prepare(
                context,
                from,
                Proposal { view, what, just },
            ),
            Body::Vote {
                phase,
                view,
                digest,
            } => {
                let poll = Poll {
                    phase,
                    view,
                    digest,
                };
                let vote = SignedVote { poll, sig };
                self.vote(context, from, vote)
            }
            Body::PreCommit { .. } => Ok(Taken::of(context.alloc, Outcome::nothing(context.alloc))),
            Body::Commit { .. } => Ok(Taken::of(context.alloc, Outcome::nothing(context.alloc))),
            Body::Decide { .. } => Ok(Taken::of(context.alloc, Outcome::nothing(context.alloc))),
        }
    }

    // The round times out: enters the next one and sends its leader a NewView.
    fn time_out(&mut self, context: &Context<Chained>) -> Result<Taken, NoMemory>
        ensures { IfOk result (λ t. Takes context.now.p.now self.old self.new Input.Timeout t) }
    {
        let outcome = self.node.time_out(context)?;
        Ok(Taken::of(context.alloc, outcome))
    }

    // Takes an input.
    fn take(&mut self, context: &Context<Chained>, i: Input<Message>) -> Result<Taken, NoMemory>
        ensures { IfOk result (λ t. Takes context.now.p.now self.old self.new i t) }
    {
        match i {
            Input::Cast { slot, batch } => self.cast(context, slot, batch),
            Input::Receive { from, msg } => self.receive(context, from, msg),
            Input::Timeout => self.time_out(context),
        }
    }
}

impl Modelled for Chained {
    type Msg = Message;

    ghost spec = { chained };
}

impl Sequenced for Chained {
    type Msg = Message;

    const TAG: u8 = 5;

    const STOPPING: bool = false;

    ghost use Rattle.std.specs.Prelude.{false};

    ghost TAG = { 5 };

    ghost STOPPING = { false };

    ghost spec = { chained };

    ghost refines = { Refines };

    fn nodes_of(f: u32) -> u32 {
        nodes_of_kind(Kind::Byzantine, f)
    }

    fn quorum_of(f: u32) -> u32 {
        quorum(Kind::Byzantine, f)
    }

    fn signs(_p: &Params) -> u32 {
        2
    }

    fn start(alloc: Global, _p: &Params, me: NodeId) -> Result<Chained, NoMemory> {
        Ok(Chained {
            node: Node::start(alloc, me),
            accepted: Accepted::new(alloc),
            delivered: 0,
        })
    }

    fn casts(&self, p: &Params, slot: Slot) -> bool {
        self.node.may_cast(p, slot)
    }

    fn asks<'a>(&'a self, p: &Params, i: &'a Input<Message>) -> Option<(Slot, &'a Batch)> {
        match i {
            Input::Cast { slot, batch } => asks_if(self.node.may_cast(p, *slot), *slot, batch),
            Input::Receive { from, msg } => self.asked(p, *from, msg),
            Input::Timeout => None,
        }
    }

    fn apply(
        &mut self,
        alloc: Global,
        p: &Params,
        i: Input<Message>,
        keys: &mut Keys,
    ) -> Result<Effects<Message>, NoMemory>
        requires good { IsGoodParams chained p.now }
        requires input { IsGoodInput p.now i }
        requires enough { chained.signs p.now ≤ left_of keys.old }
        ensures { IfOk result (λ e. IsTrueStep chained Refines p.now self.old self.new i keys.old keys.new e) }
    {
        let context = Context::of(alloc, p);
        let taken = self.take(&context, i)?;
        taken.sign(&context, keys)
    }

    fn encode(m: &Message, out: &mut Writer) -> Result<(), NoMemory> {
        hs_tree::write(PHASE, m, out)
    }

    fn decode(alloc: Global, f: &mut Fields) -> Result<Message, DecodeError> {
        hs_tree::read(alloc, PHASE, f)
    }

    fn claims(
        alloc: Global,
        p: &Params,
        from: NodeId,
        m: &Message,
    ) -> Result<Seq<Claim>, NoMemory> {
        claims(alloc, Protocol::Chained, p, from, m)
    }

    fn laws() {}
}
