//! The rules of HotStuff, one function each: the next state, and what is sent.
ghost use Rattle.std.specs.Prelude.{◌≡◌, List, ℕ, true, IfOk};
ghost use Rattle.iss_request.specs.declared.ids.NodeId.{NodeId};
ghost use Rattle.hs_tree.specs.declared.messages.Body.TheVariants.{NewView, Prepare, PreCommit, Commit, Vote};
ghost use Rattle.hs_tree.specs.Messages.{signed};
ghost use Rattle.sb_hotstuff.specs.Rules.{State, may_prepare};
ghost use Rattle.sb_hotstuff.specs.Refines.{RefinesState};
ghost use Rattle.sb_hotstuff.specs.Steps.{Does};

use crate::hotstuff::HotStuff;
use crate::outcomes::Outcome;
use crate::showing::shown_draft;
use crate::state::Node;
use hs_tree::signing::hash_node;
use hs_tree::{Certificate, Poll, Protocol};
use hs_views::{SignedVote, round_draft, round_of, vote_draft};
use iss_request::{Batch, NoMemory, NodeId, Slot};
use iss_sb::{Content, Input};
use sb_context::Context;

/// The last round: a view has 16 bits for it.
const LAST_ROUND: u16 = 65_535;

impl Node {
    /// A cast, if it is valid: it waits until the turns before it are complete, and then is proposed. The only error is
    /// out of memory.
    pub fn queue_cast(
        &mut self,
        context: &Context<HotStuff>,
        slot: Slot,
        batch: Batch,
    ) -> Result<Outcome, NoMemory>
        ensures { IfOk result (λ o. (s : State) → RefinesState self.old s →
            Does context.now.p.now self.old self.new s (Input.Cast slot batch) o) }
    {
        if !self.may_cast(context.p, slot) {
            return Ok(Outcome::nothing(context.alloc));
        }
        self.casts.push(batch)?;
        self.next(context)
    }

    /// A proposal that passed `may_prepare`: its node becomes known, its view the replica's own, and the answer is a
    /// prepare vote. The only error is out of memory.
    pub fn vote_prepare(
        &mut self,
        context: &Context<HotStuff>,
        view: u32,
        what: Content,
        just: &Certificate,
    ) -> Result<Outcome, NoMemory>
        ensures { IfOk result (λ o. (s : State) (from : NodeId) (sig : List ℕ) → RefinesState self.old s →
            may_prepare context.now.p.now s from.0 view what just.now ≡ true →
            Does context.now.p.now self.old self.new s
            (Input.Receive from (signed (Prepare view what just.now) sig)) o) }
    {
        let parent = just.digest();
        let node = hash_node(context.alloc, context.p, None, &parent, &what)?;
        let digest = node.digest;
        let poll = Poll {
            phase: 1,
            view,
            digest,
        };
        let draft = vote_draft(context.alloc, Protocol::Basic, context.p, poll)?;
        self.tree.add(digest, parent, what)?;
        self.view = view;
        self.second = false;
        self.third = false;
        Ok(Outcome {
            answer: Some(draft),
            proposal: None,
            hashed: node.strings,
        })
    }

    /// A PreCommit of the replica's own view: its prepareQC becomes the highest one, and the answer is a pre-commit
    /// vote. Otherwise nothing changes. The only error is out of memory.
    pub fn vote_pre_commit(
        &mut self,
        context: &Context<HotStuff>,
        view: u32,
        shown: Certificate,
    ) -> Result<Outcome, NoMemory>
        ensures { IfOk result (λ o. (s : State) (from : NodeId) (sig : List ℕ) → RefinesState self.old s →
            Does context.now.p.now self.old self.new s (Input.Receive from (signed (PreCommit view shown) sig)) o) }
    {
        if !self.may_second(context.p, view, &shown) {
            return Ok(Outcome::nothing(context.alloc));
        }
        let digest = shown.digest();
        let poll = Poll {
            phase: 2,
            view,
            digest,
        };
        let draft = vote_draft(context.alloc, Protocol::Basic, context.p, poll)?;
        self.high = shown;
        self.second = true;
        Ok(Outcome::of(context.alloc, draft))
    }

    /// A Commit of the replica's own view: its precommitQC becomes the lock, and the answer is a commit vote. Otherwise
    /// nothing changes. The only error is out of memory.
    // rule: HotStuff: Only a certificate of the second phase becomes the lock, which never decreases
    pub fn vote_commit(
        &mut self,
        context: &Context<HotStuff>,
        view: u32,
        shown: Certificate,
    ) -> Result<Outcome, NoMemory>
        ensures { IfOk result (λ o. (s : State) (from : NodeId) (sig : List ℕ) → RefinesState self.old s →
            Does context.now.p.now self.old self.new s (Input.Receive from (signed (Commit view shown) sig)) o) }
    {
        if !self.may_third(context.p, view, &shown) {
            return Ok(Outcome::nothing(context.alloc));
        }
        let digest = shown.digest();
        let poll = Poll {
            phase: 3,
            view,
            digest,
        };
        let draft = vote_draft(context.alloc, Protocol::Basic, context.p, poll)?;
        self.lock = shown;
        self.third = true;
        Ok(Outcome::of(context.alloc, draft))
    }

    /// A vote for one of the leader's own turns. Exactly a quorum is broadcast as a certificate. After the first and
    /// the last phase the next turn is tried. The only error is out of memory.
    pub fn count_vote(
        &mut self,
        context: &Context<HotStuff>,
        from: NodeId,
        vote: SignedVote,
    ) -> Result<Outcome, NoMemory>
        ensures { IfOk result (λ o. (s : State) → RefinesState self.old s →
            Does context.now.p.now self.old self.new s
            (Input.Receive from (signed (Vote vote.poll.phase vote.poll.view vote.poll.digest) vote.sig)) o) }
    {
        let poll = vote.poll;
        let phase = poll.phase;
        if !self.keeps_vote(context, from, &poll) {
            return Ok(Outcome::nothing(context.alloc));
        }
        self.votes.keep(from.0, poll, vote.sig)?;
        if !self.is_reached(context, &poll) {
            return Ok(Outcome::nothing(context.alloc));
        }
        let n = context.p.setup.n as u8;
        let shown = self.votes.certificate(context.alloc, n, &poll)?;
        let draft = shown_draft(context.alloc, context.p, phase, poll.view, shown)?;
        if phase == 2 {
            return Ok(Outcome::of(context.alloc, draft));
        }
        let mut outcome = self.next(context)?;
        outcome.answer = Some(draft);
        Ok(outcome)
    }

    /// A NewView for a round that the replica leads. Exactly a quorum leads to the round's first turn. The only error
    /// is out of memory.
    pub fn count_new_view(
        &mut self,
        context: &Context<HotStuff>,
        from: NodeId,
        round: u16,
        high: Certificate,
    ) -> Result<Outcome, NoMemory>
        ensures { IfOk result (λ o. (s : State) (sig : List ℕ) → RefinesState self.old s →
            Does context.now.p.now self.old self.new s (Input.Receive from (signed (NewView round high) sig)) o) }
    {
        if round == 0 {
            return Ok(Outcome::nothing(context.alloc));
        }
        if !self.keeps_news(context, from, round, &high) {
            return Ok(Outcome::nothing(context.alloc));
        }
        self.news.keep(from.0, round, high)?;
        self.first(context, round)
    }

    /// The round times out. The replica enters the next round, if there is one, and sends its leader the highest
    /// prepareQC. The only error is out of memory.
    // rule: HotStuff: A timeout enters the next round and tells its leader the highest certificate
    pub fn enter_next_round(&mut self, context: &Context<HotStuff>) -> Result<Outcome, NoMemory>
        ensures { IfOk result (λ o. (s : State) → RefinesState self.old s →
            Does context.now.p.now self.old self.new s Input.Timeout o) }
    {
        let round = round_of(self.view);
        if round >= LAST_ROUND {
            return Ok(Outcome::nothing(context.alloc));
        }
        let next = round + 1;
        let high = self.high.copy(context.alloc)?;
        let draft = round_draft(context.alloc, Protocol::Basic, context.p, next, high)?;
        self.view = next as u32 * 65536;
        self.second = false;
        self.third = false;
        Ok(Outcome::of(context.alloc, draft))
    }
}
