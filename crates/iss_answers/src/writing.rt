//! Writing a text of replies. The only error is out of memory; a part of the text may have been written then.
ghost use Rattle.std.specs.Prelude.{◌≡◌, ◌++◌, ◌∷◌, [], OnOk, map};
ghost use Rattle.iss_request.specs.Setup.{IsGoodSetup};
ghost use Rattle.iss_schedule.specs.Words.{ended};
ghost use Rattle.iss_reply.specs.Replies.{replies_to, replying};
ghost use Rattle.iss_answers.specs.Lines.{id_word, reply_line};

use iss_log::Log;
use iss_reply::{Next, Replier, Reply};
use iss_request::{NoMemory, NodeId, ReqId, Setup};
use iss_schedule::{put, put_bytes, put_decimal, put_number};
use std::alloc::Global;

/// Writes an identity.
pub(crate) fn put_id(out: &mut Vec<u8>, id: ReqId) -> Result<(), NoMemory>
    ensures { OnOk result (out.new.items ≡ out.old.items ++ id_word id) }
{
    put_decimal(out, u64::from(id.client))?;
    put(out, b".")?;
    put_decimal(out, u64::from(id.number))
}

// Writes the line of a reply.
// rule: Replies: A reply is a line with its node, epoch, number, identity, answer and signature
fn put_reply(alloc: Global, out: &mut Vec<u8>, reply: &Reply) -> Result<(), NoMemory>
    ensures { OnOk result (out.new.items ≡ out.old.items ++ reply_line reply.now ++ 10 ∷ []) }
{
    put(out, b"reply")?;
    put_number(out, u64::from(reply.by.0))?;
    put_number(out, reply.epoch.0)?;
    put_number(out, reply.q)?;
    put(out, b" ")?;
    put_id(out, reply.id)?;
    put_bytes(alloc, out, reply.answer.as_slice())?;
    put_bytes(alloc, out, reply.sig.as_slice())?;
    put(out, b"\n")
}

/// Writes the lines of a node's replies to the requests of its log, up to the leaves of its reply key.
// rule: Replies: A node writes one reply to each request of its log, as far as its key has leaves
pub fn put_replies(
    alloc: Global,
    out: &mut Vec<u8>,
    setup: &Setup,
    me: NodeId,
    log: &Log,
) -> Result<(), NoMemory>
    requires { IsGoodSetup setup.now }
    ensures { OnOk result (out.new.items ≡ out.old.items
        ++ ended (map reply_line (replies_to (replying setup.now me.0) log.now.entries))) }
{
    let mut replier = Replier::make(alloc, setup, me)?;
    'requests: loop {
        let next = replier.next(log)?;
        let Next::Reply(reply) = next else {
            return Ok(());
        };
        put_reply(alloc, out, &reply)?;
    }
}
