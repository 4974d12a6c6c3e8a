//! Which nodes lead: the leader policies.
ghost use Rattle.std.specs.Prelude.{◌≡◌, ◌<◌, ◌≤◌, suc, length, take, nat_le};
ghost use Rattle.std.specs.List.{count_by, filter};
ghost use Rattle.iss_layout.specs.Layout.{carried, is_listed, leaders_by, may_lead, nodes_below};

use crate::standing::{MOST_NODES, Standing, is_past};
use iss_request::{NodeId, Policy, Setup, Slot};

/// The nodes of a set-up, and what the ended epochs show of them. The policy chooses the leaders among these.
#[derive(Drop)]
pub(crate) struct Candidates<'a> {
    pub(crate) setup: &'a Setup,
    pub(crate) standing: &'a Standing,
    ghost few: { setup.now.n ≤ 10 },
}

impl<'a> Candidates<'a> {
    /// The leaders by the policy, ascending, and their number.
    pub(crate) fn leaders(&self) -> ([NodeId; MOST_NODES], usize)
        ensures leaders { take result.1 result.0 ≡ leaders_by self.now.setup.now (carried self.now.standing.now) }
        ensures count { result.1 ≡ length (leaders_by self.now.setup.now (carried self.now.standing.now)) }
    {
        let (leaders, count) = self.allowed();
        if count == 0 {
            return (self.all(), self.setup.n as usize);
        }
        (leaders, count)
    }

    // The nodes that the policy allows to lead, ascending, and their number.
    fn allowed(&self) -> ([NodeId; MOST_NODES], usize)
        ensures leaders { take result.1 result.0 ≡ filter
            (may_lead self.now.setup.now.policy self.now.setup.now (carried self.now.standing.now))
            (nodes_below self.now.setup.now.n) }
        ensures count { result.1 ≡ length (filter
            (may_lead self.now.setup.now.policy self.now.setup.now (carried self.now.standing.now))
            (nodes_below self.now.setup.now.n)) }
    {
        let mut leaders = [NodeId(0); MOST_NODES];
        let mut count = 0;
        for i in 0..self.setup.n {
            let node = NodeId(i as u8);
            if self.may_lead(node) {
                leaders[count] = node;
                count += 1;
            }
        }
        (leaders, count)
    }

    // All nodes, ascending.
    fn all(&self) -> [NodeId; MOST_NODES]
        ensures { take self.now.setup.now.n result ≡ nodes_below self.now.setup.now.n }
    {
        let mut all = [NodeId(0); MOST_NODES];
        for i in 0..self.setup.n {
            all[i as usize] = NodeId(i as u8);
        }
        all
    }

    // Whether the policy allows the node to lead.
    fn may_lead(&self, node: NodeId) -> bool
        requires { node.0 < self.now.setup.now.n }
        ensures { result ≡ may_lead self.now.setup.now.policy self.now.setup.now
            (carried self.now.standing.now) node }
    {
        match self.setup.policy {
            Policy::Simple => true,
            Policy::Backoff => self.standing.known(node).ban == 0,
            Policy::Blacklist => !self.is_listed(node),
        }
    }

    // Whether the blacklist excludes the node: a slot became nil under it, and at most f nodes have one as late.
    // rule: Layout: The blacklist leaves out the at most f nodes with the greatest nil slots
    fn is_listed(&self, node: NodeId) -> bool
        requires { node.0 < self.now.setup.now.n }
        ensures { result ≡ is_listed self.now.setup.now (carried self.now.standing.now) node }
    {
        let Some(worst) = self.standing.known(node).worst else {
            return false;
        };
        self.as_bad(worst) <= self.setup.f
    }

    // The number of nodes that have a nil slot at `worst` or later.
    fn as_bad(&self, worst: Slot) -> u32
        ensures { result ≡ count_by (λ j. nat_le (suc worst.0) (carried self.now.standing.now j.0).worst)
            (nodes_below self.now.setup.now.n) }
    {
        let mut found = 0;
        for i in 0..self.setup.n {
            if is_past(self.standing.known(NodeId(i as u8)).worst, worst) {
                found += 1;
            }
        }
        found
    }
}
