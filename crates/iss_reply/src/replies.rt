//! Replies, and what they sign.
ghost use Rattle.std.specs.Prelude.{◌≡◌, ◌≤◌, IfOk};
ghost use Rattle.iss_base.specs.Heights.{IsHeight};
ghost use Rattle.iss_reply.specs.Replies.{reply_key, reply_secret, reply_statement};

use iss_keys::Keys;
use iss_request::{Bytes, Epoch, NoMemory, NodeId, ReqId};
use sha2::{Digest, Sha256};
use std::alloc::Global;

// The first byte of the string whose digest is the secret of a reply key.
const REPLY_SECRET: u8 = 0x22;

// What a reply's statement has in the places of leader, module and kind: there are none.
const NO_INSTANCE: [u8; 3] = [254, 0, 0];

/// A node's signed answer to the request with number `q` in the log, in this epoch and with this identity.
#[derive(Drop, Clone, Debug)]
pub struct Reply {
    pub by: NodeId,
    pub epoch: Epoch,
    pub q: u64,
    pub id: ReqId,
    pub answer: Bytes,
    pub sig: Bytes,
}

// The secret of a node's reply key.
fn reply_secret(node: u8) -> [u8; 32]
    ensures { result ≡ reply_secret node }
{
    Sha256::digest([REPLY_SECRET, node])
}

/// A node's reply key. Its tree is computed at the first signature.
// rule: Replies: A node's reply key has a secret of its own, made behind a byte that no other key uses
pub(crate) fn reply_key(alloc: Global, node: u8, height: u8) -> Result<Keys, iss_keys::NoMemory>
    requires height { IsHeight height }
    ensures { IfOk result (λ key. key ≡ reply_key node height) }
{
    Keys::make(alloc, reply_secret(node), height)
}

/// What a reply signs: cluster, epoch, no instance, the request's identity and number, and the answer.
// rule: Replies: A reply signs the cluster, the epoch, the request's identity and number, and the answer
pub fn reply_statement(
    alloc: Global,
    tag: &[u8; 32],
    epoch: u64,
    id: ReqId,
    q: u64,
    answer: &[u8],
) -> Result<Vec<u8>, NoMemory>
    ensures { IfOk result (λ s. s.items ≡ reply_statement tag.now epoch id q answer.now) }
{
    let mut out = Vec::new(alloc);
    out.extend_from_slice(tag)?;
    out.extend_from_slice(&epoch.to_be_bytes())?;
    out.extend_from_slice(&NO_INSTANCE)?;
    out.push(id.client)?;
    out.extend_from_slice(&id.number.to_be_bytes())?;
    out.extend_from_slice(&q.to_be_bytes())?;
    out.extend_from_slice(&((answer.len() % 65_536) as u16).to_be_bytes())?;
    out.extend_from_slice(answer)?;
    Ok(out)
}
