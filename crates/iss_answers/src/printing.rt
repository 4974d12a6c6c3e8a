//! What a new client makes of the replies of a text.
ghost use Rattle.std.specs.Prelude.{◌≡◌, ◌++◌, ◌+◌, ◌∷◌, [], ℕ, List, IfOk, OnOk, IsTrue, ◌↔◌, reverse};
ghost use Rattle.iss_request.specs.Setup.{IsGoodSetup};
ghost use Rattle.iss_reply.specs.Clients.{HasTaken, cluster_of};
ghost use Rattle.iss_reply.specs.declared.replies.Reply.{Reply};
ghost use Rattle.iss_answers.specs.Lines.{id_word};
ghost use Rattle.iss_answers.specs.Internal.Short.{IsLesser, IsWithOpen};
ghost use Rattle.iss_answers.specs.Printed.{IsPrinted, IsShort, IsUpTo, end_line, taken_line, taken_lines, why_word};

use crate::told::Told;
use crate::writing::put_id;
use iss_reply::{Client, Refusal, Reply, Taken};
use iss_request::{Bytes, NoMemory, ReqId};
use iss_schedule::{put, put_bytes, put_number};
use std::alloc::Global;

/// The text to print, and the least identity of which a reply was counted and no answer accepted, if there is one.
#[derive(Drop)]
pub struct Printed {
    pub text: Bytes,
    pub short: Option<ReqId>,
}

// The name of a refusal.
fn name_of(why: Refusal) -> &'static [u8]
    ensures { result.now ≡ why_word why }
{
    match why {
        Refusal::BadReply => b"BadReply",
        Refusal::Twice => b"Twice",
    }
}

// Writes what became of the reply in this line, which is to a request with this identity.
// rule: Replies: A refused reply and an accepted answer each print a line, a late or counted reply none
fn put_taken(
    alloc: Global,
    out: &mut Vec<u8>,
    number: u64,
    id: ReqId,
    taken: &Taken,
) -> Result<(), NoMemory>
    ensures { OnOk result (out.new.items ≡ out.old.items ++ taken_line number id taken.now) }
{
    match taken {
        Taken::Refused(why) => {
            put(out, b"drop")?;
            put_number(out, number)?;
            put(out, b" ")?;
            put(out, name_of(*why))?;
            put(out, b"\n")
        }
        Taken::Accepted { q, answer } => {
            put(out, b"answer ")?;
            put_id(out, id)?;
            put_number(out, *q)?;
            put_bytes(alloc, out, answer.as_slice())?;
            put(out, b"\n")
        }
        Taken::Counted | Taken::Late => Ok(()),
    }
}

// Gives all replies to the client, in order, and writes what becomes of each.
fn take_all(
    alloc: Global,
    out: &mut Vec<u8>,
    client: &mut Client,
    replies: &[Reply],
) -> Result<(), NoMemory>
    requires { HasTaken client.old [] }
    ensures text { OnOk result
        (out.new.items ≡ out.old.items ++ taken_lines client.old.cluster (reverse replies.now)) }
    ensures taken { OnOk result (HasTaken client.new (reverse replies.now)) }
    ensures cluster { client.new.cluster ≡ client.old.cluster }
{
    for (place, reply) in replies.iter().enumerate() {
        let number = 12 + place as u64;
        let taken = client.take(reply)?;
        put_taken(alloc, out, number, reply.id, &taken)?;
    }
    Ok(())
}

// Whether an identity is not above another: by client, then by number.
fn is_up_to(a: ReqId, b: ReqId) -> bool
    ensures { IsTrue result ↔ IsUpTo a b }
{
    a.client < b.client || a.client == b.client && a.number <= b.number
}

// The lesser of two identities, if there is a first one.
fn lesser(least: Option<ReqId>, id: ReqId) -> Option<ReqId>
    ensures { IsLesser least id result }
{
    match least {
        Some(first) if is_up_to(first, id) => Some(first),
        _ => Some(id),
    }
}

// The least of these and an identity, if it is open.
fn with_open(client: &Client, least: Option<ReqId>, id: ReqId) -> Option<ReqId>
    ensures { (replies : List Reply) → HasTaken client.now replies →
        IsWithOpen client.now.cluster replies least id result }
{
    if client.is_open(id) {
        lesser(least, id)
    } else {
        least
    }
}

// The least identity of these replies of which the client counted a reply and accepted no answer.
// rule: Replies: The last line names the least identity of which a reply was counted and no answer accepted
fn short_of(client: &Client, replies: &[Reply]) -> Option<ReqId>
    requires { HasTaken client.now (reverse replies.now) }
    ensures { IsShort client.now.cluster (reverse replies.now) result }
{
    let mut least = None;
    for reply in replies {
        least = with_open(client, least, reply.id);
    }
    least
}

// Writes the last line.
fn put_last(out: &mut Vec<u8>, short: Option<ReqId>) -> Result<(), NoMemory>
    ensures { OnOk result (out.new.items ≡ out.old.items ++ end_line short) }
{
    match short {
        None => put(out, b"end ok\n"),
        Some(id) => {
            put(out, b"short ")?;
            put_id(out, id)?;
            put(out, b"\n")
        }
    }
}

/// What a new client makes of these replies, as a text. Each answer in it is the log's, if at most f nodes are faulty
/// (`accepted_answers_are_the_logs`). The only error is out of memory.
// rule: Replies: An accepted answer is the log's answer to the request with this number and identity
pub fn print(alloc: Global, told: &Told) -> Result<Printed, NoMemory>
    requires { IsGoodSetup told.now.setup }
    ensures { IfOk result (IsPrinted told.now.setup told.now.replies) }
{
    let replies = told.replies.as_slice();
    let mut out = Vec::new(alloc);
    let mut client = Client::make(alloc, &told.setup)?;
    take_all(alloc, &mut out, &mut client, replies)?;
    let short = short_of(&client, replies);
    put_last(&mut out, short)?;
    Ok(Printed {
        text: Bytes::of(out),
        short,
    })
}
