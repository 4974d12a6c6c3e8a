//! The replies of a node to the requests of its log, in the order of their numbers.
ghost use Rattle.std.specs.Prelude.{◌≡◌, ◌^◌, ◌<◌, ◌≤◌, List, length, IfOk, IsSome, option_copied};
ghost use Rattle.iss_keys.specs.Signatures.{signature_of};
ghost use Rattle.iss_request.specs.Log.{size_of};
ghost use Rattle.iss_request.specs.Setup.{IsGoodSetup};
ghost use Rattle.iss_request.specs.declared.requests.Value.{Value};
ghost use Rattle.iss_reply.specs.Answers.{answer_to};
ghost use Rattle.iss_reply.specs.Internal.Held.{held_in};
ghost use Rattle.iss_reply.specs.Replies.{replying, reply_statement, unsigned_reply};
ghost use Rattle.iss_reply.specs.Repliers.{Answered, IsNext, number_at, request_at};

use crate::replies::{Reply, reply_key, reply_statement};
use crate::stores::Store;
use iss_keys::Keys;
use iss_log::Log;
use iss_request::{Bytes, Epoch, NoMemory, NodeId, Request, Setup, Value};
use std::alloc::Global;
use std::marker::Model;

/// The result of asking for the next reply.
#[derive(Drop)]
pub enum Next {
    /// The reply to the least number not answered.
    Reply(Reply),
    /// All requests of the log are answered.
    UpToDate,
    /// The reply key has no leaf for the next request.
    Spent,
}

// Where a request is in a log: its slot, and its place in the slot's batch.
#[derive(Clone, Copy)]
struct Position {
    slot: usize,
    place: usize,
}

/// Makes a node's replies to the requests of its log. It goes through the log once.
#[derive(Drop)]
pub struct Replier {
    alloc: Global,
    tag: [u8; 32],
    slots: u64,
    height: u8,
    me: NodeId,
    key: Keys,
    number: u64,
    at: Position,
    store: Store,
}

impl Model for Replier {
    ghost use Rattle.std.specs.Prelude.{◌≡◌, ◌≤◌};
    ghost use Rattle.iss_base.specs.Heights.{IsHeight};
    ghost use Rattle.iss_reply.specs.Replies.{reply_key};
    ghost use Rattle.iss_reply.specs.Repliers.{ReplierState};

    ghost Value = { ReplierState };

    ghost view = { λ r. record {
      who = record { tag = r.tag; slots = r.slots; height = r.height; me = r.me.0 };
      number = r.number;
      slot = r.at.slot;
      place = r.at.place;
      store = r.store;
    } };

    ghost invariant = { λ r. (1 ≤ r.slots) × IsHeight r.height × (r.key ≡ reply_key r.me.0 r.height) };
}

impl Replier {
    /// A replier that answered no request, of any log. The only error is out of memory.
    pub fn make(alloc: Global, setup: &Setup, me: NodeId) -> Result<Replier, NoMemory>
        requires { IsGoodSetup setup.now }
        ensures who { IfOk result (λ r. r.who ≡ replying setup.now me.0) }
        ensures none { IfOk result (λ r. (log : List Value) → Answered r log) }
    {
        let height = setup.keys as u8;
        let Ok(key) = reply_key(alloc, me.0, height) else {
            return Err(NoMemory);
        };
        Ok(Replier {
            alloc,
            tag: setup.tag,
            slots: setup.epoch,
            height,
            me,
            key,
            number: 0,
            at: Position { slot: 0, place: 0 },
            store: Store::new(alloc),
        })
    }

    /// The reply to the least number not answered. The log must extend the one of the call before. On out of memory
    /// nothing changes, and the next call makes the same reply.
    // rule: Replies: A replier answers the least number not answered, up to the leaves of its key
    pub fn next(&mut self, log: &Log) -> Result<Next, NoMemory>
        requires { Answered self.old log.now.entries }
        ensures next { IsNext self.old log.now.entries self.new result }
        ensures answered { Answered self.new log.now.entries }
    {
        if self.number == log.requests() {
            return Ok(Next::UpToDate);
        }
        if self.number >= 1 << self.height {
            return Ok(Next::Spent);
        }
        let at = seek(log.entries(), self.at);
        let Some(request) = request_at(log.entries(), at) else {
            unreachable!();
        };
        let epoch = at.slot as u64 / self.slots;
        let unsigned = self.unsigned(epoch, request)?;
        let reply = signed(self.alloc, &self.tag, &mut self.key, unsigned)?;
        self.store.write(request.payload.as_slice())?;
        self.number += 1;
        self.at = Position {
            slot: at.slot,
            place: at.place + 1,
        };
        Ok(Next::Reply(reply))
    }

    // The reply to the next request, which is this one, without its signature.
    fn unsigned(&self, epoch: u64, request: &Request) -> Result<Reply, NoMemory>
        ensures { IfOk result (λ reply. reply ≡ unsigned_reply self.now.who epoch request.now.id self.now.number
            (answer_to (held_in self.now.store) request.now.payload)) }
    {
        let answer = self.store.answer(request.payload.as_slice())?;
        Ok(Reply {
            by: self.me,
            epoch: Epoch(epoch),
            q: self.number,
            id: request.id,
            answer,
            sig: Bytes::new(self.alloc),
        })
    }
}

// Signs a reply with the leaf of its number. The key counts no leaf as used.
// rule: Replies: A node signs its reply to request q with leaf q of its reply key
fn signed(alloc: Global, tag: &[u8; 32], key: &mut Keys, unsigned: Reply) -> Result<Reply, NoMemory>
    requires leaf { unsigned.q < 2 ^ key.old.height }
    requires high { key.old.height ≤ 20 }
    ensures signed { IfOk result (λ reply. reply ≡ record unsigned {
      sig = signature_of key.old.secret key.old.height unsigned.q
          (reply_statement tag.now unsigned.epoch.0 unsigned.id unsigned.q unsigned.answer);
    }) }
    ensures same { key.new ≡ key.old }
{
    let mut reply = unsigned;
    let statement = reply_statement(
        alloc,
        tag,
        reply.epoch.0,
        reply.id,
        reply.q,
        reply.answer.as_slice(),
    )?;
    let Ok(sig) = key.sign_at(reply.q as u32, statement.as_slice()) else {
        return Err(NoMemory);
    };
    reply.sig = Bytes::of(sig);
    Ok(reply)
}

// The number of requests in a value.
fn size_of(value: &Value) -> usize
    ensures { result ≡ size_of value.now }
{
    match value {
        Value::Nil => 0,
        Value::Batch(batch) => batch.len(),
    }
}

// The position of the same number whose place is in its slot's batch, or past the log.
fn seek(entries: &[Value], from: Position) -> Position
    requires { from.slot ≤ length entries.now }
    ensures within { result.slot ≤ length entries.now }
    ensures same { number_at entries.now result.slot result.place ≡ number_at entries.now from.slot from.place }
    ensures found { result.slot < length entries.now → IsSome (request_at entries.now result.slot result.place) }
{
    let mut at = from;
    'run: while at.slot < entries.len() {
        let size = size_of(&entries[at.slot]);
        if at.place < size {
            return at;
        }
        at = Position {
            slot: at.slot + 1,
            place: at.place - size,
        };
    }
    at
}

// The request at a position, if there is one.
fn request_at(entries: &[Value], at: Position) -> Option<&Request>
    ensures { option_copied result ≡ request_at entries.now at.slot at.place }
{
    match entries.get(at.slot) {
        Some(Value::Batch(batch)) => batch.as_slice().get(at.place),
        _ => None,
    }
}
