//! The rules of chained HotStuff that change a replica's state: what is answered and proposed.
ghost use Rattle.std.specs.Prelude.{◌≡◌, Some, IfOk};
ghost use Rattle.sb_chained.specs.Internal.Instances.{Makes, TakesNode};
ghost use Rattle.sb_chained.specs.Links.{raised_by};
ghost use Rattle.sb_chained.specs.Rules.{State, with_shown};
ghost use Rattle.sb_chained.specs.Refines.{RefinesState};

use crate::chained::Chained;
use crate::links::{Link, Lock};
use crate::outcomes::Outcome;
use crate::state::{Node, PHASE};
use hs_tree::signing::hash_node;
use hs_tree::{Certificate, Poll, Protocol};
use hs_views::{round_draft, round_of, vote_draft};
use iss_request::{Batch, NoMemory, Slot};
use iss_sb::{Content, Input, Params};
use sb_context::Context;

/// The last round: a view has 16 bits for it.
const LAST_ROUND: u16 = 65_535;

// The lock, or the justification of the node if it is higher.
fn raise(lock: Lock, link: Link) -> Lock
    ensures { result ≡ raised_by lock link }
{
    if lock.view >= link.from {
        return lock;
    }
    let parent = link.parent;
    Lock {
        view: link.from,
        node: parent,
    }
}

impl Node {
    /// Takes a certificate: if its node is known, it may become the highest one, and its node's justification the lock.
    // rule: Chained HotStuff: Only the justification of a certified node becomes the lock, which never decreases
    pub fn note(&mut self, p: &Params, shown: Certificate)
        ensures me { self.new.me ≡ self.old.me }
        ensures state { (k : State) → RefinesState p.now self.old k →
            RefinesState p.now self.new (with_shown k (Some shown)) }
    {
        let Certificate::Votes { digest, .. } = &shown else {
            return;
        };
        let Some(link) = self.nodes.link(digest) else {
            return;
        };
        self.lock = raise(self.lock, link);
        if self.high.view() < shown.view() {
            self.high = shown;
        }
    }

    /// A cast, if it is valid: it waits until the turns before it are certified, and then is proposed. The only error
    /// is out of memory.
    pub fn take_cast(
        &mut self,
        context: &Context<Chained>,
        slot: Slot,
        batch: Batch,
    ) -> Result<Outcome, NoMemory>
        ensures { IfOk result (λ o. (s : State) → RefinesState context.now.p.now self.old s →
            Makes context.now.p.now self.old self.new s (Input.Cast slot batch) o) }
    {
        if !self.may_cast(context.p, slot) {
            return Ok(Outcome::nothing(context.alloc));
        }
        self.casts.push(batch)?;
        self.next(context)
    }

    /// A proposal that passed `may_prepare`: its node becomes known, its view the replica's own, and the answer is a
    /// vote. The only error is out of memory.
    pub fn take_node(
        &mut self,
        context: &Context<Chained>,
        view: u32,
        what: Content,
        just: &Certificate,
    ) -> Result<Outcome, NoMemory>
        ensures { IfOk result (λ o. (s : State) → RefinesState context.now.p.now self.old s →
            TakesNode context.now.p.now self.old self.new s view what just.now o) }
    {
        let parent = just.digest();
        let from = just.view();
        let node = hash_node(context.alloc, context.p, Some(view), &parent, &what)?;
        let digest = node.digest;
        let poll = Poll {
            phase: PHASE,
            view,
            digest,
        };
        let draft = vote_draft(context.alloc, Protocol::Chained, context.p, poll)?;
        self.nodes.add(digest, Link { view, from, parent }, what)?;
        self.view = view;
        Ok(Outcome {
            draft: Some(draft),
            hashed: node.strings,
        })
    }

    /// The round times out. The replica enters the next round, if there is one, and sends its leader the highest
    /// certificate. The only error is out of memory.
    // rule: Chained HotStuff: A timeout enters the next round and tells its leader the highest certificate
    pub fn time_out(&mut self, context: &Context<Chained>) -> Result<Outcome, NoMemory>
        ensures { IfOk result (λ o. (s : State) → RefinesState context.now.p.now self.old s →
            Makes context.now.p.now self.old self.new s Input.Timeout o) }
    {
        let round = round_of(self.view);
        if round >= LAST_ROUND {
            return Ok(Outcome::nothing(context.alloc));
        }
        let next = round + 1;
        let high = self.high.copy(context.alloc)?;
        let draft = round_draft(context.alloc, Protocol::Chained, context.p, next, high)?;
        self.view = next as u32 * 65536;
        Ok(Outcome::of(context.alloc, draft))
    }
}
