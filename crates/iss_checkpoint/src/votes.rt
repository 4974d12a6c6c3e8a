//! Checkpoint votes, certificates, and what a vote signs.
ghost use Rattle.std.specs.Prelude.{◌≡◌, ◌∷◌, ◌++◌, []};
ghost use Rattle.std.specs.Int.{to_be_bytes, w64};
ghost use Rattle.iss_checkpoint.specs.Votes.{vote_statement};

use iss_request::{Bytes, Epoch, NodeId, Seq};
use iss_sb::Signed;

/// A node's signed vote on its log at the end of an epoch: the chain digest of the log, and the number of requests in
/// it.
#[derive(Drop)]
pub struct Vote {
    pub epoch: Epoch,
    pub chain: [u8; 32],
    pub requests: u64,
    pub by: NodeId,
    pub sig: Bytes,
}

/// A checkpoint certificate: a quorum of signatures of the same vote.
#[derive(Drop)]
pub struct Cert {
    pub epoch: Epoch,
    pub chain: [u8; 32],
    pub requests: u64,
    pub signers: Seq<Signed>,
}

// The head of a vote's statement: cluster, epoch, and a leader and module that do not exist.
fn head(tag: &[u8; 32], epoch: u64) -> [u8; 43]
    ensures { result ≡ tag.now ++ to_be_bytes w64 epoch ++ 255 ∷ 0 ∷ 0 ∷ [] }
{
    let [e0, e1, e2, e3, e4, e5, e6, e7] = epoch.to_be_bytes();
    let mut head = [0u8; 43];
    head[..32].copy_from_slice(tag);
    head[32..].copy_from_slice(&[e0, e1, e2, e3, e4, e5, e6, e7, 255, 0, 0]);
    head
}

// The part of a vote's statement that is about the log.
fn word(chain: &[u8; 32], requests: u64) -> [u8; 40]
    ensures { result ≡ chain.now ++ to_be_bytes w64 requests }
{
    let mut word = [0u8; 40];
    word[..32].copy_from_slice(chain);
    word[32..].copy_from_slice(&requests.to_be_bytes());
    word
}

/// What a checkpoint vote signs: cluster, epoch, no leader, no module, chain digest, number of requests. It needs no
/// memory.
// rule: Checkpoints: A vote signs the cluster, the epoch, the log's chain and its request count
pub fn vote_statement(tag: &[u8; 32], epoch: u64, chain: &[u8; 32], requests: u64) -> [u8; 83]
    ensures { result ≡ vote_statement tag.now epoch chain.now requests }
{
    let head = head(tag, epoch);
    let word = word(chain, requests);
    let mut statement = [0u8; 83];
    statement[..43].copy_from_slice(&head);
    statement[43..].copy_from_slice(&word);
    statement
}
