//! The rules of Raft, one function each.
ghost use Rattle.std.specs.Prelude.{◌≡◌, ◌<◌, ◌≤◌, ◌-◌, ◌^◌, ◌==◌, ◌&&◌, true, not, nat_le, OnOk, None, IfOk, length};
ghost use Rattle.iss_sb.specs.Calls.{AreToNodes};
ghost use Rattle.sb_raft.specs.Kept.{kept};
ghost use Rattle.sb_raft.specs.Logs.{fits_behind, up_to_date};
ghost use Rattle.sb_raft.specs.Rules.{candidate, counted, free_for, grants, is_candidate, is_leader, may_cast, on_append};
ghost use Rattle.sb_raft.specs.Rules.{on_ask, on_cast, on_not_ok, on_ok, on_reply, on_timeout, on_vote, raised, stands_up, won};
ghost use Rattle.sb_raft.specs.Refines.{Does, HasRoom, IsLow, cast_of, held, merges, role_of};

use crate::per_peer::{PerPeer, count};
use crate::raft::{Raft, Role};
use crate::sending::{one, only, reply};
use iss_request::{Batch, NoMemory, NodeId, Seq, Slot};
use iss_sb::{Content, Effects, Params, To, is_next};
use raft_wire::{Entry, Message};
use sb_context::Context;

/// The entries of an Append, with the index and term of the leader's entry before them, and the leader's commit index.
#[derive(Drop)]
pub struct Sent {
    pub previous: u32,
    pub previous_term: u16,
    pub commit: u32,
    pub entries: Seq<Entry>,
}

/// The last term: terms have 16 bits.
const LAST_TERM: u16 = 65_535;

impl Raft {
    // ---- a message of a higher term: the node becomes a follower in that term, and has voted for nobody in it

    // rule: Raft: A higher term makes a node a follower of that term, with no vote given in it
    pub(crate) fn raise(&mut self, term: u16)
        ensures me { self.new.me ≡ self.old.me }
        ensures state { held self.new ≡ raised (held self.old) term }
    {
        if self.term < term {
            self.term = term;
            self.vote = None;
            self.part = Role::Follower;
        }
    }

    // ---- casts: the leader of term 1 takes them in that term, each at the next slot

    pub(crate) fn may_cast(&self, p: &Params, slot: Slot) -> bool
        ensures { result ≡ may_cast p.now (held self.now) slot.0 }
    {
        self.part.is_leader() && self.term == 1 && is_next(p, self.log.filled(), slot)
    }

    // rule: Raft: The leader of the first term takes casts, each at the next slot
    // rule: Raft: A node accepts one batch a slot
    // rule: Modules: A correct leader accepts one batch at a slot
    pub(crate) fn cast(
        &mut self,
        context: &Context<Raft>,
        slot: Slot,
        batch: Batch,
    ) -> Result<Effects<Message>, NoMemory>
        ensures { IfOk result (λ e. Does context.now.p.now self.old.me (IsLow (held self.old)) (held self.old) self.new
            (on_cast context.now.p.now self.old.me.0 (held self.old) slot.0 batch)
            (cast_of context.now.p.now (held self.old) slot batch) e) }
    {
        if !self.may_cast(context.p, slot) {
            return Ok(Effects::nothing(context.alloc));
        }
        let what = Content::Holds(batch.copy()?);
        let term = self.term;
        self.log.push(Entry { term, what })?;
        let mut sends = Seq::new(context.alloc);
        self.append_to_others(context, &mut sends)?;
        let mut effects = self.advance(context, sends)?;
        effects.accepted = Some((slot, batch));
        Ok(effects)
    }

    // ---- AppendEntries: refused if the term is lower, or if the consistency check fails

    // rule: Raft: An Append of a lower term is refused with the node's own term
    pub(crate) fn take_append(
        &mut self,
        context: &Context<Raft>,
        from: NodeId,
        term: u16,
        sent: Sent,
    ) -> Result<Effects<Message>, NoMemory>
        requires { from.0 < context.now.p.now.setup.n }
        ensures { IfOk result (λ e. Does context.now.p.now self.old.me (IsLow (held self.old)) (held self.old) self.new
            (on_append (held self.old) from.0 term sent.previous sent.previous_term sent.commit sent.entries) None e) }
    {
        let previous = sent.previous as usize;
        if term != self.term {
            return reply(context.alloc, from, self.term, false, previous);
        }
        self.part = Role::Follower;
        if !self.fits_behind(previous, sent.previous_term) {
            return reply(context.alloc, from, self.term, false, previous);
        }
        let commit = sent.commit as usize;
        self.merge(context, from, previous, commit, sent.entries)
    }

    // The consistency check: whether the log has an entry of this term at the previous index.
    fn fits_behind(&self, previous: usize, term: u16) -> bool
        ensures { result ≡ fits_behind self.now.log.entries previous term }
    {
        previous <= self.log.len() && self.log.term_at(previous) == term
    }

    // Merges the entries of an Append that passed the consistency check, and commits as far as they reach. There is no
    // reply if a committed entry would be removed, or the log would exceed its limit.
    // rule: Raft: An Append keeps committed entries and removes entries that differ in term
    // rule: Raft: An Append commits only entries that it covers
    fn merge(
        &mut self,
        context: &Context<Raft>,
        from: NodeId,
        previous: usize,
        commit: usize,
        entries: Seq<Entry>,
    ) -> Result<Effects<Message>, NoMemory>
        requires from { from.0 < context.now.p.now.setup.n }
        requires previous { previous ≤ length self.old.log.entries }
        requires field { previous < 2 ^ 32 }
        ensures { IfOk result (λ e. Does context.now.p.now self.old.me (IsLow (held self.old)) (held self.old) self.new
            (merges (held self.old) from.0 previous commit entries) None e) }
    {
        let sent = previous.saturating_add(entries.len());
        if !self.log.merge(previous, entries)? {
            return Ok(Effects::nothing(context.alloc));
        }
        let told = sent.min(commit);
        let delivers = self
            .log
            .commit_to(context.alloc, told, context.p.slots.as_slice())?;
        let mut effects = reply(context.alloc, from, self.term, true, sent)?;
        effects.delivers = delivers;
        Ok(effects)
    }

    // ---- replies of other nodes in the leader's term

    fn hears(&self, from: NodeId, term: u16) -> bool
        ensures { result ≡ ((is_leader (role_of self.now.part) && (term == self.now.term)) &&
            not (from.0 == self.now.me.0)) }
    {
        self.part.is_leader() && term == self.term && from != self.me
    }

    pub(crate) fn take_reply(
        &mut self,
        context: &Context<Raft>,
        from: NodeId,
        term: u16,
        ok: bool,
        index: u32,
    ) -> Result<Effects<Message>, NoMemory>
        requires { from.0 < context.now.p.now.setup.n }
        ensures { IfOk result (λ e. Does context.now.p.now self.old.me (IsLow (held self.old)) (held self.old) self.new
            (on_reply context.now.p.now self.old.me.0 (held self.old) from.0 term ok index) None e) }
    {
        if !self.hears(from, term) {
            return Ok(Effects::nothing(context.alloc));
        }
        if ok {
            self.take_ok(context, from, index as usize)
        } else {
            self.take_not_ok(context, from, index as usize)
        }
    }

    // An ok within the log raises the node's matchIndex.
    // rule: Raft: A follower's match index never decreases within a term
    fn take_ok(
        &mut self,
        context: &Context<Raft>,
        from: NodeId,
        index: usize,
    ) -> Result<Effects<Message>, NoMemory>
        requires { is_leader (role_of self.old.part) ≡ true }
        ensures { IfOk result (λ e. Does context.now.p.now self.old.me (IsLow (held self.old)) (held self.old) self.new
            (on_ok context.now.p.now self.old.me.0 (held self.old) from.0 index) None e) }
    {
        if index > self.log.len() {
            return Ok(Effects::nothing(context.alloc));
        }
        let held = self.matched.at(from).max(index);
        self.matched.put(from, held)?;
        self.next.put(from, held.saturating_add(1))?;
        self.advance(context, Seq::new(context.alloc))
    }

    fn was_sent_last(&self, node: NodeId, index: usize) -> bool
        ensures { result ≡ ((index == kept self.now.next node.0 - 1) && nat_le 1 index) }
    {
        index == self.next.at(node).saturating_sub(1) && 1 <= index
    }

    // A refusal of the last Append decrements the node's nextIndex, and one more entry is sent.
    // rule: Raft: After a refused Append the leader sends one entry more
    fn take_not_ok(
        &mut self,
        context: &Context<Raft>,
        from: NodeId,
        index: usize,
    ) -> Result<Effects<Message>, NoMemory>
        requires from { from.0 < context.now.p.now.setup.n }
        requires leads { is_leader (role_of self.old.part) ≡ true }
        ensures { IfOk result (λ e. Does context.now.p.now self.old.me (IsLow (held self.old)) (held self.old) self.new
            (on_not_ok (held self.old) from.0 index) None e) }
    {
        if !self.was_sent_last(from, index) {
            return Ok(Effects::nothing(context.alloc));
        }
        self.next.put(from, index)?;
        let msg = self.append_behind(context.alloc, index - 1)?;
        one(context.alloc, from, msg)
    }

    // ---- RequestVote: one vote a term, only for a candidate whose log is at least as up to date

    fn is_up_to_date(&self, last: u32, last_term: u16) -> bool
        ensures { result ≡ up_to_date self.now.log.entries last last_term }
    {
        let own = self.log.last_term();
        own < last_term || (own == last_term && self.log.len() <= last as usize)
    }

    fn is_free_for(&self, node: NodeId) -> bool
        ensures { result ≡ free_for self.now.vote node.0 }
    {
        match self.vote {
            Some(voted) => voted == node.0,
            None => true,
        }
    }

    fn grants(&self, from: NodeId, term: u16, last: u32, last_term: u16) -> bool
        ensures { result ≡ grants (held self.now) from.0 term last last_term }
    {
        term == self.term && self.is_free_for(from) && self.is_up_to_date(last, last_term)
    }

    // rule: Raft: A node gives one vote a term, to a candidate whose log is up to date
    pub(crate) fn take_ask(
        &mut self,
        context: &Context<Raft>,
        from: NodeId,
        term: u16,
        last: u32,
        last_term: u16,
    ) -> Result<Effects<Message>, NoMemory>
        requires { from.0 < context.now.p.now.setup.n }
        ensures { IfOk result (λ e. Does context.now.p.now self.old.me (IsLow (held self.old)) (held self.old) self.new
            (on_ask (held self.old) from.0 term last last_term) None e) }
    {
        let term_now = self.term;
        if !self.grants(from, term, last, last_term) {
            let refusal = Message::Vote {
                term: term_now,
                granted: false,
            };
            return one(context.alloc, from, refusal);
        }
        self.vote = Some(from.0);
        let vote = Message::Vote {
            term: term_now,
            granted: true,
        };
        one(context.alloc, from, vote)
    }

    // ---- a candidate with the votes of a quorum becomes leader

    fn counts(&self, term: u16, granted: bool) -> bool
        ensures { result ≡ ((is_candidate (role_of self.now.part) && granted) && (term == self.now.term)) }
    {
        self.part.is_candidate() && granted && term == self.term
    }

    pub(crate) fn take_vote(
        &mut self,
        context: &Context<Raft>,
        from: NodeId,
        term: u16,
        granted: bool,
    ) -> Result<Effects<Message>, NoMemory>
        ensures { IfOk result (λ e. Does context.now.p.now self.old.me (IsLow (held self.old)) (held self.old) self.new
            (on_vote context.now.p.now self.old.me.0 (held self.old) from.0 term granted) None e) }
    {
        if !self.counts(term, granted) {
            return Ok(Effects::nothing(context.alloc));
        }
        self.granted.put(from, true)?;
        self.count_votes(context, Seq::new(context.alloc))
    }

    // Becomes leader if a quorum granted its vote. The log is then appended for all others to `sends`. The only error
    // is out of memory.
    fn count_votes(
        &mut self,
        context: &Context<Raft>,
        sends: Seq<(To, Message)>,
    ) -> Result<Effects<Message>, NoMemory>
        requires { AreToNodes context.now.p.now.setup.n sends }
        ensures { IfOk result (λ e.
            Does context.now.p.now self.old.me (HasRoom (held self.old)) (held self.old) self.new
            (counted context.now.p.now self.old.me.0 (held self.old) sends) None e) }
    {
        if count(&self.granted, context.nodes()) < context.p.setup.quorum {
            return Ok(only(context.alloc, sends));
        }
        self.lead(context)?;
        let mut sends = sends;
        self.append_to_others(context, &mut sends)?;
        self.advance(context, sends)
    }

    // Becomes leader: appends a mark of the term, and nil for each open slot. nextIndex is the index after the old log.
    // rule: Raft: A new leader fills the rest of its segment with a mark and nil entries
    fn lead(&mut self, context: &Context<Raft>) -> Result<(), NoMemory>
        ensures within { self.old.log.commit ≤ length self.old.log.entries }
        ensures me { OnOk result (self.new.me ≡ self.old.me) }
        ensures state { OnOk result (held self.new ≡ won context.now.p.now (held self.old)) }
    {
        let missing = context.p.slots.len().saturating_sub(self.log.filled());
        let term = self.term;
        self.part = Role::Leader;
        self.next = PerPeer::all(context.alloc, self.log.len().saturating_add(1));
        self.matched = PerPeer::all(context.alloc, 0);
        let what = Content::Mark;
        self.log.push(Entry { term, what })?;
        self.log.push_nils(term, missing)
    }

    // ---- timeouts: a leader sends its log again; another node becomes a candidate of the next term, if there is one

    // rule: Raft: A timeout makes a node a candidate of the next term, up to the last term
    // rule: Raft: A leader that times out sends its log to all others again
    pub(crate) fn time_out(&mut self, context: &Context<Raft>) -> Result<Effects<Message>, NoMemory>
        ensures { IfOk result (λ e. Does context.now.p.now self.old.me (IsLow (held self.old)) (held self.old) self.new
            (on_timeout context.now.p.now self.old.me.0 (held self.old)) None e) }
    {
        if self.part.is_leader() {
            let mut sends = Seq::new(context.alloc);
            self.append_to_others(context, &mut sends)?;
            return Ok(only(context.alloc, sends));
        }
        if self.term >= LAST_TERM {
            return Ok(Effects::nothing(context.alloc));
        }
        self.stand(context)
    }

    fn stand(&mut self, context: &Context<Raft>) -> Result<Effects<Message>, NoMemory>
        requires { self.old.term < 65535 }
        ensures { IfOk result (λ e. Does context.now.p.now self.old.me (IsLow (held self.old)) (held self.old) self.new
            (stands_up context.now.p.now self.old.me.0 (candidate self.old.me.0 (held self.old))) None e) }
    {
        self.term += 1;
        self.vote = Some(self.me.0);
        self.part = Role::Candidate;
        self.granted = PerPeer::all(context.alloc, false);
        self.granted.put(self.me, true)?;
        let sends = self.ask_others(context)?;
        self.count_votes(context, sends)
    }
}
