//! The leader's proposals.
ghost use Rattle.std.specs.Prelude.{◌≡◌, ◌≤◌, ◌<◌, ◌+◌, ◌%◌, length, Some, IfOk};
ghost use Rattle.std.specs.Option.{option_copied};
ghost use Rattle.iss_base.specs.Lists.{nth};
ghost use Rattle.sb_chained.specs.Rules.{State, cast_turn, first_high, full_turn, is_full, is_marked, next_turn, nil_or_mark, turn, turn_after, turn_on};
ghost use Rattle.hs_views.specs.Views.{Turn, round_of};
ghost use Rattle.sb_chained.specs.Refines.{RefinesState, IsLow, MayMake, Proposes, is_last_ready};
ghost use Rattle.hs_views.specs.Turns.{own_of};
ghost use Rattle.hs_tree.specs.declared.certificates.Certificate.{Certificate};

use crate::chained::Chained;
use crate::links::Link;
use crate::outcomes::Outcome;
use crate::state::{Node, PHASE};
use hs_tree::signing::hash_node;
use hs_tree::tree::weight;
use hs_tree::{Certificate, Protocol};
use hs_views::{Last, Proposal, proposal_draft, round_of};
use iss_request::{Batch, NoMemory};
use iss_sb::{Content, Params};
use sb_context::Context;

// The first content of a later round on a branch that fills this many slots: nil if a slot is open, else a mark.
fn nil_or_mark(p: &Params, slots: usize) -> Content
    ensures { result ≡ nil_or_mark p.now slots }
{
    if slots < p.slots.len() {
        Content::Nil
    } else {
        Content::Mark
    }
}

// Whether a branch that fills this many slots fills all.
fn is_full(p: &Params, slots: usize) -> bool
    ensures { result ≡ is_full p.now slots }
{
    slots >= p.slots.len()
}

impl Node {
    // Proposes a node in this view, and knows it from then on. Its parent is the justification's node, whose branch
    // fills `slots` slots. The only error is out of memory.
    fn propose(
        &mut self,
        context: &Context<Chained>,
        proposal: Proposal,
        slots: usize,
    ) -> Result<Outcome, NoMemory>
        ensures { IfOk result (λ o. (k : State) (t : Turn) →
            t ≡ turn context.now.p.now proposal.view proposal.just proposal.what slots →
            MayMake context.now.p.now k proposal.view slots proposal.what →
            RefinesState context.now.p.now self.old k → Proposes context.now.p.now self.old self.new k (Some t) o) }
    {
        let parent = proposal.just.digest();
        let from = proposal.just.view();
        let view = proposal.view;
        let node = hash_node(
            context.alloc,
            context.p,
            Some(view),
            &parent,
            &proposal.what,
        )?;
        let digest = node.digest;
        let slots = slots.saturating_add(weight(&proposal.what));
        let held = proposal.what.copy()?;
        let draft = proposal_draft(
            context.alloc,
            Protocol::Chained,
            context.p,
            proposal,
            &digest,
        )?;
        let full = is_full(context.p, slots);
        self.turns.add(
            Last {
                view,
                digest,
                slots,
            },
            round_of(view),
            full,
        )?;
        self.nodes.add(digest, Link { view, from, parent }, held)?;
        Ok(Outcome {
            draft: Some(draft),
            hashed: node.strings,
        })
    }

    // The cast at this index.
    fn cast_at(&self, place: usize) -> Option<&Batch>
        ensures { option_copied result ≡ nth self.now.casts place }
    {
        self.casts.as_slice().get(place)
    }

    // Proposes the cast at this index, if there is one.
    fn propose_cast(
        &mut self,
        context: &Context<Chained>,
        view: u32,
        just: Certificate,
        slots: usize,
    ) -> Result<Outcome, NoMemory>
        ensures { IfOk result (λ o. (k : State) → slots < length context.now.p.now.slots →
            length context.now.p.now.slots ≤ 64 →
            view % 65536 ≤ slots + 2 → RefinesState context.now.p.now self.old k →
            Proposes context.now.p.now self.old self.new k
            (cast_turn context.now.p.now view just slots (nth k.casts slots)) o) }
    {
        let Some(batch) = self.cast_at(slots) else {
            return Ok(Outcome::nothing(context.alloc));
        };
        let what = Content::Holds(batch.copy()?);
        self.propose(context, Proposal { view, what, just }, slots)
    }

    // Whether the last turn is certified, and the replica is in no later round.
    fn is_ready(&self, context: &Context<Chained>, last: &Last) -> bool
        ensures { (s : State) → RefinesState context.now.p.now self.now s →
            result ≡ is_last_ready context.now.p.now s last.now }
    {
        self.is_reached(context, last.view, &last.digest)
            && round_of(self.view) <= round_of(last.view)
    }

    // Whether a mark may follow the last turn, whose branch is full.
    fn is_marked(&self, p: &Params, last: &Last) -> bool
        ensures { (s : State) → RefinesState p.now self.now s →
            result ≡ is_marked (last.now.view + 1) (full_turn p.now s.turns (round_of last.now.view)) }
    {
        match self.turns.full(round_of(last.view)) {
            Some(full) => last.view as u64 + 1 <= full as u64 + 3,
            None => false,
        }
    }

    /// Proposes the turn after the last one, if that is certified. In round 0 the first turn needs no predecessor. The
    /// only error is out of memory.
    // rule: Chained HotStuff: The next turn extends the last one, once it is certified
    pub(crate) fn next(&mut self, context: &Context<Chained>) -> Result<Outcome, NoMemory>
        ensures { IfOk result (λ o. (k : State) → RefinesState context.now.p.now self.old k →
            Proposes context.now.p.now self.old self.new k (next_turn context.now.p.now k k.turns) o) }
    {
        let Some(last) = self.turns.last() else {
            if round_of(self.view) != 0 {
                return Ok(Outcome::nothing(context.alloc));
            }
            return self.propose_cast(context, 1, Certificate::Root, 0);
        };
        if !self.is_ready(context, &last) {
            return Ok(Outcome::nothing(context.alloc));
        }
        self.turn_after(context, last)
    }

    // Proposes the turn after a certified one: in round 0 the next slot's cast, in later rounds nil, and marks once the
    // branch is full. The only error is out of memory.
    fn turn_after(&mut self, context: &Context<Chained>, last: Last) -> Result<Outcome, NoMemory>
        ensures { IfOk result (λ o. (k : State) (t : Turn) → own_of t ≡ last → IsLow context.now.p.now last →
            RefinesState context.now.p.now self.old k →
            Proposes context.now.p.now self.old self.new k (turn_after context.now.p.now k t) o) }
    {
        let n = context.p.setup.n as u8;
        let just = self.votes.certificate(context.alloc, n, &last.poll(PHASE))?;
        let view = last.view.saturating_add(1);
        if last.slots >= context.p.slots.len() {
            if !self.is_marked(context.p, &last) {
                return Ok(Outcome::nothing(context.alloc));
            }
            let what = Content::Mark;
            return self.propose(context, Proposal { view, what, just }, last.slots);
        }
        if round_of(last.view) == 0 {
            return self.propose_cast(context, view, just, last.slots);
        }
        let what = Content::Nil;
        self.propose(context, Proposal { view, what, just }, last.slots)
    }

    /// The highest certificate of exactly a quorum's NewView messages, if its node is known and the replica is in no
    /// later round. The only error is out of memory.
    // rule: Chained HotStuff: A round begins on the highest certificate of a quorum of NewViews
    pub(crate) fn best(
        &self,
        context: &Context<Chained>,
        round: u16,
    ) -> Result<Option<Certificate>, NoMemory>
        ensures { IfOk result (λ o. (k : State) → RefinesState context.now.p.now self.now k →
            o ≡ first_high context.now.p.now k round) }
    {
        let n = context.p.setup.n as u8;
        if self.news.count(n, round) != context.p.setup.quorum || round_of(self.view) > round {
            return Ok(None);
        }
        let high = self.news.best(context.alloc, n, round)?;
        if !self.nodes.tree.has(&high.digest()) {
            return Ok(None);
        }
        Ok(Some(high))
    }

    /// Proposes the first turn of a round on this certificate. The only error is out of memory.
    pub(crate) fn first(
        &mut self,
        context: &Context<Chained>,
        round: u16,
        just: Certificate,
    ) -> Result<Outcome, NoMemory>
        requires { 1 ≤ round }
        ensures { IfOk result (λ o. (k : State) → RefinesState context.now.p.now self.old k →
            Proposes context.now.p.now self.old self.new k (turn_on context.now.p.now k round (Some just)) o) }
    {
        let slots = self.nodes.tree.slots(&just.digest());
        let what = nil_or_mark(context.p, slots);
        let view = round as u32 * 65536 + 1;
        self.propose(context, Proposal { view, what, just }, slots)
    }
}
