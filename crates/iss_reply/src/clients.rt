//! A client, which believes an answer that f + 1 nodes gave.
ghost use Rattle.std.specs.Prelude.{◌≡◌, ◌++◌, ◌∷◌, ℕ, List, [], Bool, IfOk, OnOk, OnErr, false, map, length, ◌≤◌, if◌then◌else◌};
ghost use Rattle.iss_base.specs.Heights.{IsHeight};
ghost use Rattle.iss_keys.specs.KeyStates.{public_of};
ghost use Rattle.iss_keys.specs.Directories.{public_keys_of};
ghost use Rattle.iss_keys.specs.VerifiedBy.{is_verified_by};
ghost use Rattle.iss_request.specs.Log.{same_id};
ghost use Rattle.iss_request.specs.Setup.{IsGoodSetup};
ghost use Rattle.iss_request.specs.declared.ids.ReqId.{ReqId};
ghost use Rattle.iss_request.specs.declared.requests.Value.{Value};
ghost use Rattle.iss_request.specs.declared.setups.Setup.{Setup};
ghost use Rattle.iss_reply.specs.declared.replies.Reply.{Reply};
ghost use Rattle.iss_reply.specs.Clients.{AreHonest, HasTaken, IsBelieved, accepted_with, agree, agreeing, cluster_of, counts, has_reply_of, is_answered, is_open, is_open_after, is_signed, judged, outcome, some_agree, stated_by, stated_in};
ghost use Rattle.iss_reply.specs.Replies.{reply_secret};

use crate::replies::{Reply, reply_key, reply_statement};
use iss_keys::{Keys, verify};
use iss_request::{Bytes, Epoch, NoMemory, NodeId, ReqId, Seq, Setup};
use std::alloc::Global;
use std::collections::HashMap;
use std::marker::Model;

/// Why a reply is not counted.
#[derive(Clone, Copy, Debug, PartialEq, Eq)]
pub enum Refusal {
    /// The node does not exist, or its signature is invalid.
    BadReply,
    /// The node's reply to this request was counted before.
    Twice,
}

/// The result of taking a reply.
#[derive(Drop)]
pub enum Taken {
    /// The reply was counted.
    Counted,
    /// The reply is the one that makes f + 1 equal ones. Request `q` of the log has this answer.
    Accepted { q: u64, answer: Bytes },
    /// The request has its answer already.
    Late,
    /// The reply was not counted.
    Refused(Refusal),
}

/// What a node's reply to a request states.
#[derive(Drop)]
pub struct Stated {
    pub by: NodeId,
    pub epoch: Epoch,
    pub q: u64,
    pub answer: Bytes,
}

/// A client of a cluster: the replies that it counted, by the request's identity.
#[derive(Drop)]
pub struct Client {
    alloc: Global,
    tag: [u8; 32],
    f: u32,
    keys: Vec<Keys>,
    stated: HashMap<ReqId, Seq<Stated>>,
}

impl Model for Client {
    ghost use Rattle.std.specs.Prelude.{map};
    ghost use Rattle.iss_keys.specs.KeyStates.{public_of};
    ghost use Rattle.iss_reply.specs.Clients.{ClientState};

    ghost Value = { ClientState };

    ghost view = { λ c. record {
      cluster = record { tag = c.tag; f = c.f; keys = map public_of c.keys.items };
      stated = c.stated.entries;
    } };
}

impl Client {
    /// A client that took no reply. A node's public key is computed at its first reply.
    pub fn make(alloc: Global, setup: &Setup) -> Result<Client, NoMemory>
        requires { IsGoodSetup setup.now }
        ensures cluster { IfOk result (λ c. c.cluster ≡ cluster_of setup.now) }
        ensures none { IfOk result (λ c. HasTaken c []) }
    {
        let keys = reply_keys(alloc, setup.n, setup.keys as u8)?;
        Ok(Client {
            alloc,
            tag: setup.tag,
            f: setup.f,
            keys,
            stated: HashMap::new(alloc),
        })
    }

    /// Takes a reply. An answer is accepted as soon as f + 1 nodes gave it. If at most f nodes are faulty, one of these
    /// is correct, so it is the answer of the log. After a reply that is late or refused, and on out of memory, nothing
    /// has changed.
    // rule: Replies: An accepted answer is the log's answer to the request with this number and identity
    pub fn take(&mut self, reply: &Reply) -> Result<Taken, NoMemory>
        ensures taken { IfOk result (λ taken. (replies : List Reply) → HasTaken self.old replies →
            taken ≡ outcome self.old.cluster replies reply.now) }
        ensures after { OnOk result ((replies : List Reply) → HasTaken self.old replies →
            HasTaken self.new (reply.now ∷ replies)) }
        ensures believed { IfOk result (λ taken. (s : Setup) (correct : ℕ → Bool) (log : List Value)
            (replies : List Reply) → self.old.cluster ≡ cluster_of s → HasTaken self.old replies →
            AreHonest s correct log (reply.now ∷ replies) → IsBelieved log reply.now taken) }
        ensures cluster { self.new.cluster ≡ self.old.cluster }
        ensures uncounted { IfOk result (λ taken. counts taken ≡ false → self.new ≡ self.old) }
        ensures err { OnErr result (self.new ≡ self.old) }
    {
        let taken = self.judge(reply)?;
        if counts(&taken) {
            self.count(reply)?;
        }
        Ok(taken)
    }

    /// Whether a reply to the request was counted, and no answer accepted.
    pub fn is_open(&self, id: ReqId) -> bool
        ensures { (replies : List Reply) → HasTaken self.now replies →
            result ≡ is_open_after self.now.cluster replies id }
    {
        is_open(self.f, self.stated_in(id))
    }

    // What becomes of a reply.
    // rule: Replies: A client refuses a bad signature first, ignores what is late, and then refuses a second reply
    fn judge(&self, reply: &Reply) -> Result<Taken, NoMemory>
        ensures { IfOk result (λ taken. taken ≡
            judged self.now.cluster (stated_in self.now.stated reply.now.id) reply.now) }
    {
        if !self.is_signed(reply)? {
            return Ok(Taken::Refused(Refusal::BadReply));
        }
        let all = self.stated_in(reply.id);
        if is_answered(self.f, all) {
            return Ok(Taken::Late);
        }
        if has_reply_of(reply.by, all) {
            return Ok(Taken::Refused(Refusal::Twice));
        }
        let stated = stated_by(reply)?;
        accepted_with(self.f, reply, agreeing(&stated, all))
    }

    // Whether the reply's node exists and signed it.
    // rule: Replies: A reply counts only if its node's reply key signed it
    fn is_signed(&self, reply: &Reply) -> Result<bool, NoMemory>
        ensures { IfOk result (λ signed. signed ≡ is_signed self.now.cluster reply.now) }
    {
        let answer = reply.answer.as_slice();
        let statement = reply_statement(
            self.alloc,
            &self.tag,
            reply.epoch.0,
            reply.id,
            reply.q,
            answer,
        )?;
        Ok(is_verified_by(
            self.keys.as_slice(),
            reply.by.0,
            statement.as_slice(),
            reply.sig.as_slice(),
        ))
    }

    // The counted replies to an identity.
    fn stated_in(&self, id: ReqId) -> &[Stated]
        ensures { result.now ≡ stated_in self.now.stated id }
    {
        match self.stated.get(&id) {
            Some(all) => all.as_slice(),
            None => &[],
        }
    }

    // Counts a reply.
    fn count(&mut self, reply: &Reply) -> Result<(), NoMemory>
        ensures counted { OnOk result ((id : ReqId) → stated_in self.new.stated id ≡
            (if same_id reply.now.id id then stated_in self.old.stated id ++ stated_by reply.now ∷ []
            else stated_in self.old.stated id)) }
        ensures cluster { self.new.cluster ≡ self.old.cluster }
        ensures err { OnErr result (self.new ≡ self.old) }
    {
        let stated = stated_by(reply)?;
        match self.stated.get_mut(&reply.id) {
            Some(all) => {
                all.push(stated)?;
                return Ok(());
            }
            None => {}
        }
        let mut all = Seq::new(self.alloc);
        all.push(stated)?;
        let _none = self.stated.insert(reply.id, all)?;
        Ok(())
    }
}

// The reply keys of the nodes below `n`.
fn reply_keys(alloc: Global, n: u32, height: u8) -> Result<Vec<Keys>, NoMemory>
    requires n { n ≤ 256 }
    requires height { IsHeight height }
    ensures { IfOk result (λ keys. map public_of keys.items ≡ public_keys_of reply_secret height n) }
{
    let mut keys = Vec::new(alloc);
    'nodes: for node in 0..n {
        let Ok(key) = reply_key(alloc, node as u8, height) else {
            return Err(NoMemory);
        };
        keys.push(key)?;
    }
    Ok(keys)
}

// Whether `signature` is a signature of `statement` by the key with this number, if there is one.
fn is_verified_by(keys: &[Keys], number: u8, statement: &[u8], signature: &[u8]) -> bool
    ensures { result ≡ is_verified_by (map public_of keys.now) number statement.now signature.now }
{
    match keys.get(number as usize) {
        Some(key) => verify(&key.public(), statement, signature),
        None => false,
    }
}

// What a reply states.
fn stated_by(reply: &Reply) -> Result<Stated, NoMemory>
    ensures { IfOk result (λ stated. stated ≡ stated_by reply.now) }
{
    let _q = reply.q;
    Ok(Stated {
        by: reply.by,
        epoch: reply.epoch,
        q: reply.q,
        answer: reply.answer.copy()?,
    })
}

// Whether both state the same epoch, number and answer.
// rule: Replies: Two replies agree if their epochs, numbers and answers are equal
fn agree(a: &Stated, b: &Stated) -> bool
    ensures { result ≡ agree a.now b.now }
{
    a.epoch.0 == b.epoch.0 && a.q == b.q && a.answer.as_slice() == b.answer.as_slice()
}

// How many of these agree with a reply.
fn agreeing(a: &Stated, all: &[Stated]) -> usize
    ensures value { result ≡ agreeing a.now all.now }
    ensures most { result ≤ length all.now }
{
    match all {
        [] => 0,
        [b, others @ ..] => {
            let more = agreeing(a, others);
            if agree(a, b) { more + 1 } else { more }
        }
    }
}

// Whether one of these is of this node.
fn has_reply_of(by: NodeId, all: &[Stated]) -> bool
    ensures { result ≡ has_reply_of by.0 all.now }
{
    match all {
        [] => false,
        [b, others @ ..] => b.by.0 == by.0 || has_reply_of(by, others),
    }
}

// Whether more than f of all agree with one of these.
fn some_agree(f: u32, all: &[Stated], some: &[Stated]) -> bool
    ensures { result ≡ some_agree f all.now some.now }
{
    match some {
        [] => false,
        [b, others @ ..] => agreeing(b, all) > f as usize || some_agree(f, all, others),
    }
}

// Whether the identity of these replies has its answer.
fn is_answered(f: u32, all: &[Stated]) -> bool
    ensures { result ≡ is_answered f all.now }
{
    some_agree(f, all, all)
}

// Whether there are replies, and no answer.
fn is_open(f: u32, all: &[Stated]) -> bool
    ensures { result ≡ is_open f all.now }
{
    match all {
        [] => false,
        [_, ..] => !is_answered(f, all),
    }
}

// What becomes of a reply that counts, with which `n` others agree.
// rule: Replies: An answer is accepted as soon as f + 1 nodes gave it, and no earlier
fn accepted_with(f: u32, reply: &Reply, n: usize) -> Result<Taken, NoMemory>
    ensures { IfOk result (λ taken. taken ≡ accepted_with f reply.now n) }
{
    if n == f as usize {
        let answer = reply.answer.copy()?;
        return Ok(Taken::Accepted { q: reply.q, answer });
    }
    Ok(Taken::Counted)
}

// Whether the reply was counted.
fn counts(taken: &Taken) -> bool
    ensures { result ≡ counts taken.now }
{
    match taken {
        Taken::Counted | Taken::Accepted { .. } => true,
        Taken::Late | Taken::Refused(_) => false,
    }
}
