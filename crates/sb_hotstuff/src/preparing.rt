//! The test of a proposal (HotStuff: safeNode, and the checks of sender, view and content). It allocates nothing, since
//! the host asks for it before it takes the input.
ghost use Rattle.std.specs.Prelude.{◌≡◌, ◌&&◌, ℕ};
ghost use Rattle.iss_sb.specs.Calls.{IsGoodParams};
ghost use Rattle.sb_hotstuff.specs.HotStuff.{hotstuff};
ghost use Rattle.iss_base.specs.Lists.{same_bytes};
ghost use Rattle.hs_tree.specs.Certificates.{digest_of};
ghost use Rattle.hs_tree.specs.Tree.{is_known};
ghost use Rattle.sb_hotstuff.specs.Rules.{State, is_allowed, is_just, is_safe, may_prepare, node_digest, slots_below};
ghost use Rattle.hs_views.specs.Views.{round_of};
ghost use Rattle.sb_hotstuff.specs.Refines.{RefinesState};

use crate::state::{Node, is_allowed, is_just};
use hs_tree::Certificate;
use hs_tree::hashing::digest_of_node;
use hs_tree::tree::same;
use hs_views::round_of;
use iss_request::NodeId;
use iss_sb::{Content, Params};

impl Node {
    // Whether the proposal's node is the locked one, proposed again.
    fn is_locked(&self, p: &Params, what: &Content, just: &Certificate) -> bool
        ensures { (s : State) (view : ℕ) → RefinesState self.now s →
            result ≡ same_bytes (node_digest p.now view what.now just.now) (digest_of s.lock) }
    {
        let node = digest_of_node(p.setup.version, None, &just.digest(), what);
        same(&node, &self.lock.digest())
    }

    // HotStuff's safeNode: the node extends the locked one, or its justification is above the lock. The node is hashed
    // only if the cheaper tests fail.
    // rule: HotStuff: A proposal is safe if it extends the lock or its certificate is above the lock
    fn is_safe(&self, p: &Params, what: &Content, just: &Certificate) -> bool
        ensures { (s : State) (view : ℕ) → RefinesState self.now s → result ≡ is_safe p.now s view what.now just.now }
    {
        if self.lock.view() < just.view() {
            return true;
        }
        if self.tree.extends(&just.digest(), &self.lock.digest()) {
            return true;
        }
        self.is_locked(p, what, just)
    }

    // Whether the content may follow the branch of the justification's node.
    fn is_fit(&self, p: &Params, view: u32, what: &Content, just: &Certificate) -> bool
        ensures { (s : State) → RefinesState self.now s →
            result ≡ is_allowed p.now (round_of view) (slots_below s just.now) what.now }
    {
        is_allowed(p, round_of(view), self.tree.slots(&just.digest()), what)
    }

    // Whether the justification is valid for this view, and its node known.
    fn is_founded(&self, p: &Params, view: u32, just: &Certificate) -> bool
        ensures { (s : State) → RefinesState self.now s →
            result ≡ (is_just p.now view just.now && is_known s.tree (digest_of just.now)) }
    {
        is_just(p, view, just) && self.tree.has(&just.digest())
    }

    /// Whether the proposal is taken and gets a prepare vote.
    pub fn may_prepare(
        &self,
        p: &Params,
        from: NodeId,
        view: u32,
        what: &Content,
        just: &Certificate,
    ) -> bool
        requires { IsGoodParams hotstuff p.now }
        ensures { (s : State) → RefinesState self.now s → result ≡ may_prepare p.now s from.0 view what.now just.now }
    {
        if !self.is_timely(p, from, view) || !self.is_founded(p, view, just) {
            return false;
        }
        if !self.is_fit(p, view, what, just) {
            return false;
        }
        self.is_safe(p, what, just)
    }
}
