//! The state of a replica of HotStuff, and the tests of its rules.
ghost use Rattle.std.specs.Prelude.{◌≡◌, ◌&&◌, IsTrue};
ghost use Rattle.iss_base.specs.Lists.{In};
ghost use Rattle.hs_tree.specs.Certificates.{digest_of};
ghost use Rattle.hs_tree.specs.Tree.{is_known};
ghost use Rattle.iss_sb.specs.Calls.{IsGoodParams};
ghost use Rattle.sb_hotstuff.specs.HotStuff.{hotstuff};
ghost use Rattle.sb_hotstuff.specs.Rules.{State, is_allowed, is_good, is_just, is_reached, is_shown, is_timely, keeps_news, keeps_vote, may_cast, may_second, may_third, start};
ghost use Rattle.sb_hotstuff.specs.Refines.{RefinesState};

use crate::hotstuff::HotStuff;
use hs_tree::certificates::is_phase;
use hs_tree::{Certificate, Poll, Tree};
use hs_views::{Ballots, Turns, Words, leader_of, round_of};
use iss_request::{Batch, NodeId, Seq, Slot};
use iss_sb::{Content, Params, is_next};
use sb_context::Context;
use std::alloc::Global;

/// The number of voting phases: prepare, pre-commit and commit.
pub const PHASES: u8 = 3;

/// The protocol's state of one replica in one instance.
#[derive(Drop)]
pub struct Node {
    pub(crate) me: NodeId,
    pub(crate) view: u32,
    pub(crate) tree: Tree,
    // the highest prepareQC, and the lock, which is a precommitQC (HotStuff: lockedQC)
    pub(crate) high: Certificate,
    pub(crate) lock: Certificate,
    // whether it cast its pre-commit vote and its commit vote in this view
    pub(crate) second: bool,
    pub(crate) third: bool,
    // a leader's casts and turns, and the votes and NewView messages that it received
    pub(crate) casts: Seq<Batch>,
    pub(crate) turns: Turns,
    pub(crate) votes: Ballots,
    pub(crate) news: Words,
}

/// Whether this is a valid quorum certificate: exactly a quorum's votes for this phase in this view, which has a turn.
/// The signatures are checked by the host.
// rule: HotStuff: A certificate has the votes of exactly a quorum
pub fn is_good(p: &Params, phase: u8, view: u32, c: &Certificate) -> bool
    ensures { result ≡ is_good p.now phase view c.now }
{
    view % 65536 >= 1 && c.is_quorum(p.setup.quorum, phase, view)
}

/// Whether the certificate may justify a proposal in this view: the root's, or a prepareQC of an earlier view.
pub fn is_just(p: &Params, view: u32, c: &Certificate) -> bool
    ensures { result ≡ is_just p.now view c.now }
{
    match c {
        Certificate::Root => true,
        Certificate::Votes { view: voted, .. } => is_good(p, 1, *voted, c) && *voted < view,
    }
}

/// Whether the content may follow a branch that fills this many slots. In round 0 a batch; in later rounds nil, and a
/// mark once all slots are filled.
// rule: HotStuff: Batches are proposed in round 0 only; later rounds propose nil, then marks
pub fn is_allowed(p: &Params, round: u16, slots: usize, what: &Content) -> bool
    ensures { result ≡ is_allowed p.now round slots what.now }
{
    match what {
        Content::Nil => round >= 1 && slots < p.slots.len(),
        Content::Holds(_) => round == 0 && slots < p.slots.len(),
        Content::Mark => round >= 1 && slots >= p.slots.len(),
    }
}

impl Node {
    /// The initial state.
    pub fn start(alloc: Global, me: NodeId) -> Node
        ensures me { result.me ≡ me }
        ensures state { RefinesState result start }
    {
        Node {
            me,
            view: 0,
            tree: Tree::new(alloc),
            high: Certificate::Root,
            lock: Certificate::Root,
            second: false,
            third: false,
            casts: Seq::new(alloc),
            turns: Turns::new(alloc),
            votes: Ballots::new(alloc),
            news: Words::new(alloc),
        }
    }

    /// Whether a cast at this slot is valid: at the segment's leader, in round 0, at the next slot.
    pub fn may_cast(&self, p: &Params, slot: Slot) -> bool
        ensures may { (s : State) → RefinesState self.now s → result ≡ may_cast p.now self.now.me.0 s slot.0 }
        ensures inside { IsTrue result → In slot p.now.slots }
    {
        if self.me != p.leader || round_of(self.view) != 0 {
            return false;
        }
        is_next(p, self.casts.len(), slot)
    }

    /// Whether the proposal is by the leader of its view, in a view above the replica's own that has a turn.
    // rule: HotStuff: A proposal is taken only in a view above the replica's own
    pub fn is_timely(&self, p: &Params, from: NodeId, view: u32) -> bool
        requires { IsGoodParams hotstuff p.now }
        ensures { (s : State) → RefinesState self.now s → result ≡ is_timely p.now s from.0 view }
    {
        from == leader_of(p, round_of(view)) && self.view < view && view % 65536 >= 1
    }

    // Whether the certificate is valid for this phase in the replica's own view, and its node known.
    fn is_shown(&self, p: &Params, phase: u8, view: u32, shown: &Certificate) -> bool
        ensures { (s : State) → RefinesState self.now s → result ≡ is_shown p.now s phase view shown.now }
    {
        is_good(p, phase, view, shown) && view == self.view && self.tree.has(&shown.digest())
    }

    /// Whether a PreCommit with this prepareQC gets a pre-commit vote.
    // rule: HotStuff: A replica votes once for a phase of a view, in views that never decrease
    pub fn may_second(&self, p: &Params, view: u32, shown: &Certificate) -> bool
        ensures { (s : State) → RefinesState self.now s → result ≡ may_second p.now s view shown.now }
    {
        self.is_shown(p, 1, view, shown) && !self.second
    }

    /// Whether a Commit with this precommitQC gets a commit vote.
    pub fn may_third(&self, p: &Params, view: u32, shown: &Certificate) -> bool
        ensures { (s : State) → RefinesState self.now s → result ≡ may_third p.now s view shown.now }
    {
        self.is_shown(p, 2, view, shown) && !self.third
    }

    /// Whether the certificate is a valid commitQC of a known node, which decides the node's branch.
    pub fn may_deliver(&self, p: &Params, view: u32, shown: &Certificate) -> bool
        ensures { (s : State) → RefinesState self.now s →
            result ≡ (is_good p.now 3 view shown.now && is_known s.tree (digest_of shown.now)) }
    {
        is_good(p, PHASES, view, shown) && self.tree.has(&shown.digest())
    }

    /// Whether the vote is counted: for one of the replica's own turns, the sender's first, and below a quorum.
    pub fn keeps_vote(&self, context: &Context<HotStuff>, from: NodeId, poll: &Poll) -> bool
        ensures { (s : State) → RefinesState self.now s →
            result ≡ keeps_vote context.now.p.now s from.0 poll.now.phase poll.now.view poll.now.digest }
    {
        is_phase(PHASES, poll.phase)
            && self.turns.has(poll.view, &poll.digest)
            && !self.votes.has(from.0, poll)
            && self.votes.count(context.p.setup.n as u8, poll) < context.p.setup.quorum
    }

    /// Whether exactly a quorum's votes were received.
    pub fn is_reached(&self, context: &Context<HotStuff>, poll: &Poll) -> bool
        ensures { (s : State) → RefinesState self.now s →
            result ≡ is_reached context.now.p.now s poll.now.phase poll.now.view poll.now.digest }
    {
        self.votes.count(context.p.setup.n as u8, poll) == context.p.setup.quorum
    }

    /// Whether the NewView message is counted: for a round that the replica leads, with a valid justification, the
    /// sender's first, and below a quorum.
    pub fn keeps_news(
        &self,
        context: &Context<HotStuff>,
        from: NodeId,
        round: u16,
        high: &Certificate,
    ) -> bool
        ensures { (s : State) → RefinesState self.now s →
            result ≡ keeps_news context.now.p.now self.now.me.0 s from.0 round high.now }
    {
        round >= 1
            && self.me == leader_of(context.p, round)
            && is_just(context.p, round as u32 * 65536, high)
            && !self.news.has(from.0, round)
            && self.news.count(context.p.setup.n as u8, round) < context.p.setup.quorum
    }
}
