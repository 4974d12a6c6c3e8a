//! Checkpoint votes in bytes: the body of a packet that names the node and the epoch. All format versions are the same
//! here.
ghost use Rattle.std.specs.Prelude.{◌≡◌, ℕ, [], IfOk, OnOk, Err};
ghost use Rattle.iss_request.specs.Fields.{Bad, Good, IsRead, IsUnreadable, and_bytes};
ghost use Rattle.iss_request.specs.Parsing.{all_of};
ghost use Rattle.iss_checkpoint.specs.Bodies.{fits, parse_vote, spell_vote, vote_row};

use crate::votes::Vote;
use iss_request::{
    Bytes, DecodeError, Epoch, Fields, NoMemory, NodeId, Writer, has_shape, read_signature,
};
use std::alloc::Global;

// The format version used to encode and decode votes: any, since all are the same.
const VERSION: u8 = 1;

// Written for a vote without an encoding: its signature has height 0, so it decodes to no vote.
const NO_VOTE: [u8; 41] = [0; 41];

fn has_spelling(vote: &Vote) -> bool
    ensures { result ≡ fits vote.now }
{
    // Names the value, so that the proof sees its range.
    let _requests = vote.requests;
    has_shape(vote.sig.as_slice())
}

fn put_row(vote: &Vote, out: &mut Writer) -> Result<(), NoMemory>
    ensures { OnOk result (out.new ≡ and_bytes out.old (vote_row vote.now)) }
{
    out.put_bytes(&vote.chain)?;
    out.put_u64(vote.requests)?;
    out.put_bytes(vote.sig.as_slice())
}

/// Appends a vote's encoding. A vote without one is written as bytes that no reader accepts.
// rule: Checkpoints: A vote has one encoding in a packet's body: chain, count, signature
pub fn write_vote(vote: &Vote, out: &mut Writer) -> Result<(), NoMemory>
    ensures { OnOk result (out.new ≡ and_bytes out.old (spell_vote vote.now)) }
{
    if !has_spelling(vote) {
        return out.put_bytes(&NO_VOTE);
    }
    put_row(vote, out)
}

/// Decodes a node's vote for an epoch. `BadField` names the first field that does not fit.
pub fn read_vote(
    alloc: Global,
    by: NodeId,
    epoch: Epoch,
    f: &mut Fields,
) -> Result<Vote, DecodeError>
    ensures ok { IfOk result (λ v. IsRead (parse_vote by.0 epoch.0) f.old f.new v) }
    ensures bad { (at : ℕ) → result ≡ Err (DecodeError.BadField at) → IsUnreadable (parse_vote by.0 epoch.0) f.old at }
{
    let chain = f.read_digest()?;
    let requests = f.read_u64()?;
    let sig = read_signature(alloc, f)?;
    Ok(Vote {
        epoch,
        chain,
        requests,
        by,
        sig,
    })
}

/// The encoding of a vote. A vote without one gives bytes that decode to no vote. The only error is out of memory.
pub fn encode_vote(alloc: Global, vote: &Vote) -> Result<Bytes, NoMemory>
    ensures { IfOk result (λ bytes. bytes ≡ spell_vote vote.now) }
{
    let mut out = Writer::new(alloc, VERSION);
    write_vote(vote, &mut out)?;
    Ok(out.into_bytes())
}

/// Decodes a node's vote for an epoch, which must take up all of the bytes. `BadField` gives the offset of the first
/// field that does not fit, or of the first byte after the vote.
pub fn decode_vote(
    alloc: Global,
    by: NodeId,
    epoch: Epoch,
    bytes: &[u8],
) -> Result<Vote, DecodeError>
    ensures ok { IfOk result (λ v. parse_vote by.0 epoch.0 bytes.now ≡ Good v []) }
    ensures bad { (at : ℕ) → result ≡ Err (DecodeError.BadField at) →
        all_of (parse_vote by.0 epoch.0) bytes.now ≡ Bad at }
{
    let mut f = Fields::over(VERSION, bytes);
    let vote = read_vote(alloc, by, epoch, &mut f)?;
    if !f.is_done() {
        return Err(f.bad_field());
    }
    Ok(vote)
}
