//! The messages that a node sends.
ghost use Rattle.std.specs.Prelude.{◌≡◌, ◌<◌, ◌≤◌, ◌^◌, ◌++◌, ◌∷◌, [], ℕ, length, IfOk, OnOk};
ghost use Rattle.iss_sb.specs.Calls.{AreToNodes};
ghost use Rattle.sb_raft.specs.Rules.{append_behind, appends, ask_vote, others, append_to, to, to_each};
ghost use Rattle.sb_raft.specs.Refines.{Fits, IsReply, OnlySends, held, other};

use crate::raft::Raft;
use iss_request::{NoMemory, NodeId, Seq};
use iss_sb::{Effects, To};
use raft_wire::Message;
use sb_context::Context;
use std::alloc::Global;

// An index as a message's field. Every index that is sent fits; a larger one would become the greatest.
fn field_of(index: usize) -> u32
    ensures { index < 2 ^ 32 → result ≡ index }
{
    if index > u32::MAX as usize {
        return u32::MAX;
    }
    index as u32
}

/// Only these messages.
pub fn only(alloc: Global, sends: Seq<(To, Message)>) -> Effects<Message>
    ensures { OnlySends sends result }
{
    let mut effects = Effects::nothing(alloc);
    effects.sends = sends;
    effects
}

/// Only this message, to one node. The only error is out of memory.
pub fn one(alloc: Global, node: NodeId, msg: Message) -> Result<Effects<Message>, NoMemory>
    ensures { IfOk result (λ e. OnlySends (to node.0 msg ∷ []) e) }
{
    let mut sends = Seq::new(alloc);
    sends.push((To::One(node), msg))?;
    Ok(only(alloc, sends))
}

/// Only a Reply (AppendEntries result), to one node. The only error is out of memory.
pub fn reply(
    alloc: Global,
    node: NodeId,
    term: u16,
    ok: bool,
    index: usize,
) -> Result<Effects<Message>, NoMemory>
    ensures { IfOk result (λ e. IsReply node.0 term ok index e) }
{
    let index = field_of(index);
    one(alloc, node, Message::Reply { term, ok, index })
}

impl Raft {
    // An Append with the entries after this index. The only error is out of memory.
    // rule: Raft: An Append has the entries behind an index, and the term of the entry there
    pub(crate) fn append_behind(&self, alloc: Global, previous: usize) -> Result<Message, NoMemory>
        ensures { IfOk result (λ m. length self.now.log.entries < 2 ^ 32 → previous ≤ length self.now.log.entries →
            m ≡ append_behind (held self.now) previous) }
    {
        let entries = self.log.behind(alloc, previous)?;
        Ok(Message::Append {
            term: self.term,
            previous: field_of(previous),
            previous_term: self.log.term_at(previous),
            commit: field_of(self.log.commit()),
            entries,
        })
    }

    // Appends to `sends` an Append for each other node, from its nextIndex on. The only error is out of memory.
    pub(crate) fn append_to_others(
        &self,
        context: &Context<Raft>,
        sends: &mut Seq<(To, Message)>,
    ) -> Result<(), NoMemory>
        ensures appends { OnOk result
            (Fits (held self.now) → sends.new ≡ sends.old ++ appends context.now.p.now self.now.me.0 (held self.now)) }
        ensures addressed { OnOk result
            (AreToNodes context.now.p.now.setup.n sends.old → AreToNodes context.now.p.now.setup.n sends.new) }
    {
        for k in 0..context.nodes() {
            self.append_to(context.alloc, NodeId(k), sends)?;
        }
        Ok(())
    }

    // Appends to `sends` an Append for this node, unless it is the node itself.
    fn append_to(
        &self,
        alloc: Global,
        node: NodeId,
        sends: &mut Seq<(To, Message)>,
    ) -> Result<(), NoMemory>
        ensures appends { OnOk result
            (Fits (held self.now) → sends.new ≡ sends.old ++ to_each (append_to (held self.now))
            (other self.now.me.0 node.0)) }
        ensures addressed { OnOk result ((n : ℕ) → node.0 < n → AreToNodes n sends.old → AreToNodes n sends.new) }
    {
        if node == self.me {
            return Ok(());
        }
        let previous = self.next.at(node).saturating_sub(1);
        let msg = self.append_behind(alloc, previous)?;
        sends.push((To::One(node), msg))?;
        Ok(())
    }

    // A RequestVote for each other node. The only error is out of memory.
    pub(crate) fn ask_others(&self, context: &Context<Raft>) -> Result<Seq<(To, Message)>, NoMemory>
        ensures asks { IfOk result (λ sends. length self.now.log.entries < 2 ^ 32 →
            sends ≡ to_each (ask_vote (held self.now)) (others self.now.me.0 context.now.p.now.setup.n)) }
        ensures addressed { IfOk result (λ sends. AreToNodes context.now.p.now.setup.n sends) }
    {
        let mut sends = Seq::new(context.alloc);
        for k in 0..context.nodes() {
            self.ask(NodeId(k), &mut sends)?;
        }
        Ok(sends)
    }

    // Appends to `sends` a RequestVote for this node, unless it is the node itself.
    // rule: Raft: A candidate asks for votes with the index and term of its last entry
    fn ask(&self, node: NodeId, sends: &mut Seq<(To, Message)>) -> Result<(), NoMemory>
        ensures asks { OnOk result (length self.now.log.entries < 2 ^ 32 →
            sends.new ≡ sends.old ++ to_each (ask_vote (held self.now)) (other self.now.me.0 node.0)) }
        ensures addressed { OnOk result ((n : ℕ) → node.0 < n → AreToNodes n sends.old → AreToNodes n sends.new) }
    {
        if node == self.me {
            return Ok(());
        }
        let msg = Message::AskVote {
            term: self.term,
            last: field_of(self.log.len()),
            last_term: self.log.last_term(),
        };
        sends.push((To::One(node), msg))?;
        Ok(())
    }
}
