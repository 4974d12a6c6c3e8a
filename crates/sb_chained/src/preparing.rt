//! The test of a proposal (HotStuff: safeNode, and the checks of sender, view and content). It allocates nothing, since
//! the host asks before it takes the input.
ghost use Rattle.std.specs.Prelude.{◌≡◌, ◌==◌, ◌&&◌, nat_le, nat_lt};
ghost use Rattle.iss_sb.specs.Calls.{IsGoodParams};
ghost use Rattle.sb_chained.specs.Chained.{chained};
ghost use Rattle.iss_base.specs.Lists.{same_bytes};
ghost use Rattle.hs_tree.specs.Certificates.{digest_of};
ghost use Rattle.hs_tree.specs.Tree.{is_known};
ghost use Rattle.sb_chained.specs.Rules.{State, is_allowed, is_just, is_safe, is_usable, may_prepare, node_digest, slots_below};
ghost use Rattle.hs_views.specs.Views.{leader_of, round_of, turn_of};
ghost use Rattle.sb_chained.specs.Refines.{RefinesState};

use crate::state::{Node, is_allowed, is_just};
use hs_tree::Certificate;
use hs_tree::hashing::digest_of_node;
use hs_tree::tree::same;
use hs_views::{leader_of, round_of};
use iss_request::NodeId;
use iss_sb::{Content, Params};

impl Node {
    // Whether it is by the leader of its view, which has a turn.
    fn is_turn(&self, p: &Params, from: NodeId, view: u32) -> bool
        requires { IsGoodParams chained p.now }
        ensures { result ≡ ((from.0 == leader_of p.now (round_of view)) && nat_le 1 (turn_of view)) }
    {
        from == leader_of(p, round_of(view)) && view % 65536 >= 1
    }

    // Whether the justification is valid and its node known.
    fn is_founded(&self, p: &Params, view: u32, just: &Certificate) -> bool
        ensures { (s : State) → RefinesState p.now self.now s → result ≡ (is_just p.now view just.now &&
            is_known s.tree (digest_of just.now)) }
    {
        is_just(p, view, just) && self.nodes.tree.has(&just.digest())
    }

    /// Whether it is by the leader of its view, on a valid justification whose node is known.
    pub fn is_usable(&self, p: &Params, from: NodeId, view: u32, just: &Certificate) -> bool
        requires { IsGoodParams chained p.now }
        ensures { (s : State) → RefinesState p.now self.now s → result ≡ is_usable p.now s from.0 view just.now }
    {
        self.is_turn(p, from, view) && self.is_founded(p, view, just)
    }

    // Whether the proposal's node is the locked one.
    fn is_locked(&self, p: &Params, view: u32, what: &Content, just: &Certificate) -> bool
        ensures { (s : State) → RefinesState p.now self.now s →
            result ≡ same_bytes (node_digest p.now view what.now just.now) s.lock.node }
    {
        let node = digest_of_node(p.setup.version, Some(view), &just.digest(), what);
        same(&node, &self.lock.node)
    }

    // Whether the node extends the locked one, or its justification is above the lock. The node is hashed only if
    // neither its parent extends the locked node nor its justification is above it.
    // rule: Chained HotStuff: A proposal is safe if it extends the lock or its certificate is above the lock
    fn is_safe(&self, p: &Params, view: u32, what: &Content, just: &Certificate) -> bool
        ensures { (s : State) → RefinesState p.now self.now s → result ≡ is_safe p.now s view what.now just.now }
    {
        if self.lock.view < just.view() {
            return true;
        }
        if self.nodes.tree.extends(&just.digest(), &self.lock.node) {
            return true;
        }
        self.is_locked(p, view, what, just)
    }

    // Whether the content may follow the branch of the justification's node.
    fn is_fit(&self, p: &Params, view: u32, what: &Content, just: &Certificate) -> bool
        ensures { (s : State) → RefinesState p.now self.now s →
            result ≡ is_allowed p.now (round_of view) (slots_below s just.now) what.now }
    {
        is_allowed(
            p,
            round_of(view),
            self.nodes.tree.slots(&just.digest()),
            what,
        )
    }

    // Whether the view is above the replica's own.
    // rule: Chained HotStuff: A proposal is taken only in a view above the replica's own
    // rule: Chained HotStuff: A replica votes once a view, in ascending views
    fn is_above(&self, p: &Params, view: u32) -> bool
        ensures { (s : State) → RefinesState p.now self.now s → result ≡ nat_lt s.view view }
    {
        self.view < view
    }

    /// Whether the proposal is taken and gets a vote.
    pub fn may_prepare(
        &self,
        p: &Params,
        from: NodeId,
        view: u32,
        what: &Content,
        just: &Certificate,
    ) -> bool
        requires { IsGoodParams chained p.now }
        ensures { (s : State) → RefinesState p.now self.now s →
            result ≡ may_prepare p.now s from.0 view what.now just.now }
    {
        if !self.is_usable(p, from, view, just) || !self.is_above(p, view) {
            return false;
        }
        if !self.is_fit(p, view, what, just) {
            return false;
        }
        self.is_safe(p, view, what, just)
    }
}
