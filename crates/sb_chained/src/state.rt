//! What a replica of chained HotStuff keeps, and the tests of its rules.
ghost use Rattle.std.specs.Prelude.{◌≡◌, ◌==◌, ◌&&◌, not, nat_lt, is_some, length, IsTrue};
ghost use Rattle.iss_base.specs.Lists.{In};
ghost use Rattle.iss_sb.specs.declared.effects.Params.{Params};
ghost use Rattle.sb_chained.specs.Rules.{State, is_allowed, is_good, is_just, is_reached, keeps_news, keeps_vote, may_cast, start};
ghost use Rattle.hs_views.specs.Views.{is_own_turn, vote_of, votes_of};
ghost use Rattle.sb_chained.specs.Refines.{RefinesState};

use crate::chained::Chained;
use crate::links::{Lock, Nodes};
use crate::turns::Turns;
use hs_tree::{Certificate, Poll};
use hs_views::{Ballots, Words, leader_of, round_of};
use iss_request::{Batch, NodeId, Seq, Slot};
use iss_sb::{Content, Params, is_next};
use sb_context::Context;
use std::alloc::Global;

/// The only voting phase.
pub const PHASE: u8 = 1;

/// The protocol's state of a replica in one instance.
#[derive(Drop)]
pub struct Node {
    pub(crate) me: NodeId,
    pub(crate) view: u32,
    pub(crate) nodes: Nodes,
    // The highest certificate, and the lock: the highest justification of a certified node (HotStuff: genericQC,
    // lockedQC).
    pub(crate) high: Certificate,
    pub(crate) lock: Lock,
    // A leader's batches, its turns, and the votes and NewView messages received.
    pub(crate) casts: Seq<Batch>,
    pub(crate) turns: Turns,
    pub(crate) votes: Ballots,
    pub(crate) news: Words,
}

/// Whether the certificate has exactly a quorum's votes in this view, which has a turn.
// rule: Chained HotStuff: A certificate has the votes of exactly a quorum
pub fn is_good(p: &Params, view: u32, c: &Certificate) -> bool
    ensures { result ≡ is_good p.now view c.now }
{
    view % 65536 >= 1 && c.is_quorum(p.setup.quorum, PHASE, view)
}

/// Whether the certificate may justify a proposal in this view: the root's, or one of an earlier view.
pub fn is_just(p: &Params, view: u32, c: &Certificate) -> bool
    ensures { result ≡ is_just p.now view c.now }
{
    match c {
        Certificate::Root => true,
        Certificate::Votes { view: voted, .. } => is_good(p, *voted, c) && *voted < view,
    }
}

/// Whether the content may follow a branch that fills this many slots: in round 0 a batch, in later rounds nil; a mark
/// once all slots are filled.
// rule: Chained HotStuff: Batches are proposed in round 0 only; later rounds propose nil; marks follow a full branch
pub fn is_allowed(p: &Params, round: u16, slots: usize, what: &Content) -> bool
    ensures { result ≡ is_allowed p.now round slots what.now }
{
    match what {
        Content::Nil => round >= 1 && slots < p.slots.len(),
        Content::Holds(_) => round == 0 && slots < p.slots.len(),
        Content::Mark => slots >= p.slots.len(),
    }
}

impl Node {
    /// The initial state.
    pub fn start(alloc: Global, me: NodeId) -> Node
        ensures me { result.me ≡ me }
        ensures state { (p : Params) → RefinesState p result start }
    {
        Node {
            me,
            view: 0,
            nodes: Nodes::new(alloc),
            high: Certificate::Root,
            lock: Lock {
                view: 0,
                node: [0; 32],
            },
            casts: Seq::new(alloc),
            turns: Turns::new(alloc),
            votes: Ballots::new(alloc),
            news: Words::new(alloc),
        }
    }

    /// Whether a cast at this slot is valid: at the segment's leader, in round 0, at the next slot.
    pub fn may_cast(&self, p: &Params, slot: Slot) -> bool
        ensures may { (s : State) → RefinesState p.now self.now s → result ≡ may_cast p.now self.now.me.0 s slot.0 }
        ensures inside { IsTrue result → In slot p.now.slots }
    {
        if self.me != p.leader || round_of(self.view) != 0 {
            return false;
        }
        is_next(p, self.casts.len(), slot)
    }

    // Whether the vote is for one of the replica's own turns.
    fn is_own(&self, phase: u8, view: u32, digest: &[u8; 32]) -> bool
        ensures { (p : Params) (s : State) → RefinesState p self.now s → result ≡ ((phase == 1) &&
            is_own_turn s.turns view digest.now) }
    {
        if phase != PHASE {
            return false;
        }
        self.turns.has(view, digest)
    }

    // Whether the vote is its sender's first, and fewer than a quorum were received.
    fn is_new(&self, context: &Context<Chained>, from: NodeId, view: u32, digest: &[u8; 32]) -> bool
        ensures { (s : State) → RefinesState context.now.p.now self.now s →
            result ≡ (not (is_some (vote_of s.votes 1 view digest.now from.0)) &&
            nat_lt (length (votes_of context.now.p.now.setup.n s.votes 1 view digest.now))
            context.now.p.now.setup.quorum) }
    {
        let poll = Poll {
            phase: PHASE,
            view,
            digest: *digest,
        };
        if self.votes.has(from.0, &poll) {
            return false;
        }
        self.votes.count(context.p.setup.n as u8, &poll) < context.p.setup.quorum
    }

    /// Whether the vote is counted: for one of the replica's own turns, the sender's first, and below a quorum.
    pub fn keeps_vote(&self, context: &Context<Chained>, from: NodeId, poll: &Poll) -> bool
        ensures { (s : State) → RefinesState context.now.p.now self.now s →
            result ≡ keeps_vote context.now.p.now s from.0 poll.now.phase poll.now.view poll.now.digest }
    {
        self.is_own(poll.phase, poll.view, &poll.digest)
            && self.is_new(context, from, poll.view, &poll.digest)
    }

    /// Whether exactly a quorum's votes were received.
    pub fn is_reached(&self, context: &Context<Chained>, view: u32, digest: &[u8; 32]) -> bool
        ensures { (s : State) → RefinesState context.now.p.now self.now s →
            result ≡ is_reached context.now.p.now s view digest.now }
    {
        let poll = Poll {
            phase: PHASE,
            view,
            digest: *digest,
        };
        self.votes.count(context.p.setup.n as u8, &poll) == context.p.setup.quorum
    }

    /// Whether the NewView message is counted: for a round that the replica leads, with a valid justification, the
    /// sender's first, and below a quorum.
    pub fn keeps_news(
        &self,
        context: &Context<Chained>,
        from: NodeId,
        round: u16,
        high: &Certificate,
    ) -> bool
        ensures { (s : State) → RefinesState context.now.p.now self.now s →
            result ≡ keeps_news context.now.p.now self.now.me.0 s from.0 round high.now }
    {
        round >= 1
            && self.me == leader_of(context.p, round)
            && is_just(context.p, round as u32 * 65536, high)
            && !self.news.has(from.0, round)
            && self.news.count(context.p.setup.n as u8, round) < context.p.setup.quorum
    }
}
