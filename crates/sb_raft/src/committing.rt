//! Committing by counting how many nodes hold an entry.
ghost use Rattle.std.specs.Prelude.{◌≡◌, length, None, IfOk};
ghost use Rattle.iss_base.specs.Quorum.{count_below};
ghost use Rattle.iss_sb.specs.Calls.{AreToNodes};
ghost use Rattle.sb_raft.specs.Rules.{advanced, greatest, holds, may_commit};
ghost use Rattle.sb_raft.specs.Refines.{Does, Fits, IsMost, far, held};

use crate::raft::Raft;
use crate::sending::only;
use iss_request::{NoMemory, NodeId, Seq};
use iss_sb::{Effects, To};
use raft_wire::Message;
use sb_context::Context;

impl Raft {
    // Whether the node is known to hold the log up to this index.
    fn is_held(&self, node: NodeId, index: usize) -> bool
        ensures { result ≡ holds self.now.me.0 (held self.now) index node.0 }
    {
        node == self.me || index <= self.matched.at(node)
    }

    // How many nodes are known to hold the log up to this index.
    fn holders(&self, context: &Context<Raft>, index: usize) -> u32
        ensures { result ≡ count_below (holds self.now.me.0 (held self.now) index) context.now.p.now.setup.n }
    {
        let mut count = 0u32;
        for k in 0..context.nodes() {
            if self.is_held(NodeId(k), index) {
                count += 1;
            }
        }
        count
    }

    // Up to which index the node is known to hold the log.
    fn far(&self, node: NodeId) -> usize
        ensures { result ≡ far self.now.me.0 (held self.now) node.0 }
    {
        if node == self.me {
            self.log.len()
        } else {
            self.matched.at(node).min(self.log.len())
        }
    }

    // The greatest index up to which a quorum holds the log. It is the length of some node's known prefix, so only
    // these are tried.
    fn held_by_quorum(&self, context: &Context<Raft>) -> usize
        ensures { IsMost context.now.p.now self.now.me.0 (held self.now) result }
    {
        let mut most = 0usize;
        for k in 0..context.nodes() {
            let far = self.far(NodeId(k));
            if far > most && self.holders(context, far) >= context.p.setup.quorum {
                most = far;
            }
        }
        most
    }

    // The greatest index above the commit index whose entry is of the leader's term and held by a quorum, else the
    // commit index.
    // rule: Raft: The commit index is the greatest that may be committed
    fn reach(&self, context: &Context<Raft>) -> usize
        ensures { result ≡ greatest (may_commit context.now.p.now self.now.me.0 (held self.now)) self.now.log.commit
            (length self.now.log.entries) }
    {
        let commit = self.log.commit();
        let mut index = self.held_by_quorum(context);
        'down: while index > commit {
            if self.log.term_at(index) == self.term {
                return index;
            }
            index -= 1;
        }
        commit
    }

    // Commits what a quorum holds. If the commit index rises, the leader appends its log to all others to `sends`. The
    // only error is out of memory.
    // rule: Raft: A leader commits by counting an entry of its own term, and all entries before it
    // rule: Modules: A step delivers exactly what the module's definition delivers
    pub(crate) fn advance(
        &mut self,
        context: &Context<Raft>,
        sends: Seq<(To, Message)>,
    ) -> Result<Effects<Message>, NoMemory>
        requires { AreToNodes context.now.p.now.setup.n sends }
        ensures { IfOk result (λ e. Does context.now.p.now self.old.me (Fits (held self.old)) (held self.old) self.new
            (advanced context.now.p.now self.old.me.0 (record { state = held self.old; sends = sends })) None e) }
    {
        let index = self.reach(context);
        if index <= self.log.commit() {
            return Ok(only(context.alloc, sends));
        }
        let delivers = self
            .log
            .commit_to(context.alloc, index, context.p.slots.as_slice())?;
        let mut sends = sends;
        self.append_to_others(context, &mut sends)?;
        let mut effects = only(context.alloc, sends);
        effects.delivers = delivers;
        Ok(effects)
    }
}
