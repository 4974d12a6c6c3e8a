//! A node's part in an instance of Raft, as an ordering module (ISS: Sequenced Broadcast).
ghost use Rattle.std.specs.Prelude.{◌≡◌, ◌<◌, ◌≤◌, None, IfOk};
ghost use Rattle.iss_keys.specs.KeyStates.{left_of};
ghost use Rattle.iss_sb.specs.Calls.{IsGoodInput, IsGoodParams, IsTrueStep};
ghost use Rattle.sb_raft.specs.Raft.{raft};
ghost use Rattle.sb_raft.specs.Rules.{is_candidate, is_leader, on_message, term_of};
ghost use Rattle.sb_raft.specs.Refines.{Does, IsLow, Refines, held, role_of};

use crate::log::Log;
use crate::per_peer::PerPeer;
use crate::rules::Sent;
use iss_keys::Keys;
use iss_request::{
    Batch, DecodeError, Fields, Kind, NoMemory, NodeId, Seq, Slot, Writer, nodes_of_kind, quorum,
};
use iss_sb::{Claim, Effects, Input, Params, Sequenced, asks_if};
use raft_wire::Message;
use sb_context::{Context, Modelled};
use std::alloc::Global;

/// A node's role in its term.
#[derive(Clone, Copy, Debug)]
pub enum Role {
    Follower,
    Candidate,
    Leader,
}

impl Role {
    /// Whether it is the leader.
    pub fn is_leader(self) -> bool
        ensures { result ≡ is_leader (role_of self) }
    {
        match self {
            Role::Leader => true,
            _ => false,
        }
    }

    /// Whether it is a candidate.
    pub fn is_candidate(self) -> bool
        ensures { result ≡ is_candidate (role_of self) }
    {
        match self {
            Role::Candidate => true,
            _ => false,
        }
    }
}

/// A node's part in one instance.
#[derive(Drop)]
pub struct Raft {
    pub(crate) me: NodeId,
    pub(crate) term: u16,
    // whom it voted for in this term (Raft: votedFor)
    pub(crate) vote: Option<u8>,
    pub(crate) part: Role,
    pub(crate) log: Log,
    // a leader's nextIndex and matchIndex of each other node
    pub(crate) next: PerPeer<usize>,
    pub(crate) matched: PerPeer<usize>,
    // which nodes granted a candidate their vote, itself included
    pub(crate) granted: PerPeer<bool>,
}

// The term of a message.
fn term_of(msg: &Message) -> u16
    ensures { result ≡ term_of msg.now }
{
    match msg {
        Message::Append { term, .. } => *term,
        Message::Reply { term, .. } => *term,
        Message::AskVote { term, .. } => *term,
        Message::Vote { term, .. } => *term,
    }
}

impl Raft {
    // The term. Its type bounds it, which proofs use.
    fn term(&self) -> u16
        ensures { result ≡ self.now.term }
    {
        self.term
    }

    // Takes a message. Its term is taken over first if it is higher.
    fn receive(
        &mut self,
        context: &Context<Raft>,
        from: NodeId,
        msg: Message,
    ) -> Result<Effects<Message>, NoMemory>
        requires { from.0 < context.now.p.now.setup.n }
        ensures { IfOk result (λ e. Does context.now.p.now self.old.me (IsLow (held self.old)) (held self.old) self.new
            (on_message context.now.p.now self.old.me.0 (held self.old) from.0 msg) None e) }
    {
        let told = term_of(&msg);
        self.raise(told);
        match msg {
            Message::Append {
                term,
                previous,
                previous_term,
                commit,
                entries,
            } => {
                let sent = Sent {
                    previous,
                    previous_term,
                    commit,
                    entries,
                };
                self.take_append(context, from, term, sent)
            }
            Message::Reply { term, ok, index } => self.take_reply(context, from, term, ok, index),
            Message::AskVote {
                term,
                last,
                last_term,
            } => self.take_ask(context, from, term, last, last_term),
            Message::Vote { term, granted } => self.take_vote(context, from, term, granted),
        }
    }
}

impl Modelled for Raft {
    type Msg = Message;

    ghost spec = { raft };
}

impl Sequenced for Raft {
    type Msg = Message;

    const TAG: u8 = 2;

    const STOPPING: bool = true;

    ghost use Rattle.std.specs.Prelude.{true};

    ghost TAG = { 2 };

    ghost STOPPING = { true };

    ghost spec = { raft };

    ghost refines = { Refines };

    fn nodes_of(f: u32) -> u32 {
        nodes_of_kind(Kind::Stopping, f)
    }

    fn quorum_of(f: u32) -> u32 {
        quorum(Kind::Stopping, f)
    }

    fn signs(_p: &Params) -> u32 {
        0
    }

    fn start(alloc: Global, p: &Params, me: NodeId) -> Result<Raft, NoMemory> {
        let part = if me == p.leader {
            Role::Leader
        } else {
            Role::Follower
        };
        Ok(Raft {
            me,
            term: 1,
            vote: Some(p.leader.0),
            part,
            log: Log::new(alloc),
            next: PerPeer::all(alloc, 1),
            matched: PerPeer::all(alloc, 0),
            granted: PerPeer::all(alloc, false),
        })
    }

    fn casts(&self, p: &Params, slot: Slot) -> bool {
        self.may_cast(p, slot)
    }

    fn asks<'a>(&'a self, p: &Params, i: &'a Input<Message>) -> Option<(Slot, &'a Batch)> {
        match i {
            Input::Cast { slot, batch } => asks_if(self.may_cast(p, *slot), *slot, batch),
            _ => None,
        }
    }

    fn apply(
        &mut self,
        alloc: Global,
        p: &Params,
        i: Input<Message>,
        _keys: &mut Keys,
    ) -> Result<Effects<Message>, NoMemory>
        requires good { IsGoodParams raft p.now }
        requires input { IsGoodInput p.now i }
        requires enough { raft.signs p.now ≤ left_of _keys.old }
        ensures { IfOk result (λ e. IsTrueStep raft Refines p.now self.old self.new i _keys.old _keys.new e) }
    {
        let _term = self.term();
        let context = Context::of(alloc, p);
        match i {
            Input::Cast { slot, batch } => self.cast(&context, slot, batch),
            Input::Receive { from, msg } => self.receive(&context, from, msg),
            Input::Timeout => self.time_out(&context),
        }
    }

    fn encode(m: &Message, out: &mut Writer) -> Result<(), NoMemory> {
        raft_wire::write(m, out)
    }

    fn decode(alloc: Global, f: &mut Fields) -> Result<Message, DecodeError> {
        raft_wire::read(alloc, f)
    }

    fn claims(
        alloc: Global,
        _p: &Params,
        _from: NodeId,
        _m: &Message,
    ) -> Result<Seq<Claim>, NoMemory> {
        Ok(Seq::new(alloc))
    }

    fn laws() {}
}
