//! The leader's proposals.
ghost use Rattle.std.specs.Prelude.{◌≡◌, ◌≤◌, ◌<◌, ◌+◌, ◌^◌, ◌%◌, Some, IfOk};
ghost use Rattle.std.specs.Option.{option_copied};
ghost use Rattle.iss_base.specs.Lists.{nth};
ghost use Rattle.sb_hotstuff.specs.Rules.{State, cast_turn, first_turn, next_turn, nil_or_mark, turn, turn_after};
ghost use Rattle.hs_views.specs.Views.{Turn};
ghost use Rattle.sb_hotstuff.specs.Refines.{IsLow, RefinesState, is_last_ready};
ghost use Rattle.sb_hotstuff.specs.Steps.{Proposes};
ghost use Rattle.hs_views.specs.Turns.{own_of};

use crate::hotstuff::HotStuff;
use crate::outcomes::Outcome;
use crate::state::{Node, PHASES};
use hs_tree::signing::hash_node;
use hs_tree::tree::weight;
use hs_tree::{Certificate, Protocol};
use hs_views::{Last, Proposal, proposal_draft, round_of};
use iss_request::{Batch, NoMemory};
use iss_sb::{Content, Params};
use sb_context::Context;

// The first content of a later round on a branch that fills this many slots: nil if a slot is open, else a mark.
fn nil_or_mark(p: &Params, slots: usize) -> Content
    ensures { result ≡ nil_or_mark p.now slots }
{
    if slots < p.slots.len() {
        Content::Nil
    } else {
        Content::Mark
    }
}

impl Node {
    // Proposes a node in this view. Its parent is the justification's node, whose branch fills `slots` slots. The only
    // error is out of memory.
    fn propose(
        &mut self,
        context: &Context<HotStuff>,
        proposal: Proposal,
        slots: usize,
    ) -> Result<Outcome, NoMemory>
        ensures { IfOk result (λ o. (k : State) (t : Turn) →
            t ≡ turn context.now.p.now proposal.view proposal.just proposal.what slots → slots < 2 ^ 63 →
            IsLow (own_of t) → RefinesState self.old k → Proposes context.now.p.now self.old self.new k (Some t) o) }
    {
        let parent = proposal.just.digest();
        let node = hash_node(context.alloc, context.p, None, &parent, &proposal.what)?;
        let digest = node.digest;
        let slots = slots.saturating_add(weight(&proposal.what));
        let view = proposal.view;
        let draft = proposal_draft(context.alloc, Protocol::Basic, context.p, proposal, &digest)?;
        self.turns.add(Last {
            view,
            digest,
            slots,
        })?;
        Ok(Outcome {
            answer: None,
            proposal: Some(draft),
            hashed: node.strings,
        })
    }

    // The cast at this index.
    fn cast_at(&self, place: usize) -> Option<&Batch>
        ensures { option_copied result ≡ nth self.now.casts place }
    {
        self.casts.as_slice().get(place)
    }

    // Proposes the cast at this index, if there is one.
    fn propose_cast(
        &mut self,
        context: &Context<HotStuff>,
        view: u32,
        just: Certificate,
        slots: usize,
        place: usize,
    ) -> Result<Outcome, NoMemory>
        ensures { IfOk result (λ o. (k : State) → slots < 2 ^ 63 → view % 65536 ≤ slots + 2 → slots + 1 ≤ view →
            RefinesState self.old k →
            Proposes context.now.p.now self.old self.new k
            (cast_turn context.now.p.now view just slots (nth k.casts place)) o) }
    {
        let Some(batch) = self.cast_at(place) else {
            return Ok(Outcome::nothing(context.alloc));
        };
        let what = Content::Holds(batch.copy()?);
        self.propose(context, Proposal { view, what, just }, slots)
    }

    // Whether the last turn's prepareQC and commitQC were broadcast, and the replica is in no later round.
    fn is_ready(&self, context: &Context<HotStuff>, last: &Last) -> bool
        ensures { (s : State) → RefinesState self.now s → result ≡ is_last_ready context.now.p.now s last.now }
    {
        self.is_reached(context, &last.poll(1))
            && self.is_reached(context, &last.poll(PHASES))
            && round_of(self.view) <= round_of(last.view)
    }

    /// Proposes the turn after the last one, if that is complete. In round 0 the first turn needs no predecessor. The
    /// only error is out of memory.
    // rule: HotStuff: The next turn extends the last one, once its first and last quorum were shown
    pub(crate) fn next(&mut self, context: &Context<HotStuff>) -> Result<Outcome, NoMemory>
        ensures { IfOk result (λ o. (k : State) → RefinesState self.old k →
            Proposes context.now.p.now self.old self.new k (next_turn context.now.p.now k k.turns) o) }
    {
        let Some(last) = self.turns.last() else {
            if round_of(self.view) != 0 {
                return Ok(Outcome::nothing(context.alloc));
            }
            return self.propose_cast(context, 1, Certificate::Root, 0, 0);
        };
        if !self.is_ready(context, &last) {
            return Ok(Outcome::nothing(context.alloc));
        }
        self.turn_after(context, last)
    }

    // Proposes the turn after a complete one: in round 0 the next cast, in later rounds nil until the branch is full.
    fn turn_after(&mut self, context: &Context<HotStuff>, last: Last) -> Result<Outcome, NoMemory>
        ensures { IfOk result (λ o. (k : State) (t : Turn) → own_of t ≡ last → IsLow last → RefinesState self.old k →
            Proposes context.now.p.now self.old self.new k (turn_after context.now.p.now k t) o) }
    {
        let n = context.p.setup.n as u8;
        let just = self.votes.certificate(context.alloc, n, &last.poll(1))?;
        let view = last.view.saturating_add(1);
        if round_of(last.view) == 0 {
            return self.propose_cast(context, view, just, last.slots, last.view as usize);
        }
        if last.slots >= context.p.slots.len() {
            return Ok(Outcome::nothing(context.alloc));
        }
        let what = Content::Nil;
        self.propose(context, Proposal { view, what, just }, last.slots)
    }

    /// Proposes the first turn of a round, once exactly a quorum's NewView messages were received. Nothing is proposed
    /// if the replica is in a later round or the certificate's node is unknown. The only error is out of memory.
    // rule: HotStuff: A round begins on the highest certificate of a quorum of NewViews
    pub(crate) fn first(
        &mut self,
        context: &Context<HotStuff>,
        round: u16,
    ) -> Result<Outcome, NoMemory>
        requires { 1 ≤ round }
        ensures { IfOk result (λ o. (k : State) → RefinesState self.old k →
            Proposes context.now.p.now self.old self.new k (first_turn context.now.p.now k round) o) }
    {
        let n = context.p.setup.n as u8;
        if self.news.count(n, round) != context.p.setup.quorum || round_of(self.view) > round {
            return Ok(Outcome::nothing(context.alloc));
        }
        let just = self.news.best(context.alloc, n, round)?;
        let parent = just.digest();
        if !self.tree.has(&parent) {
            return Ok(Outcome::nothing(context.alloc));
        }
        let slots = self.tree.slots(&parent);
        let what = nil_or_mark(context.p, slots);
        let view = round as u32 * 65536 + 1;
        self.propose(context, Proposal { view, what, just }, slots)
    }
}
