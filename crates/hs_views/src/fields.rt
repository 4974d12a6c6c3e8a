//! The fields of a message that travel together.
use hs_tree::{Certificate, Poll};
use iss_request::Bytes;
use iss_sb::Content;

/// A proposal: its view, what its node holds, and the certificate of the node's parent.
#[derive(Drop)]
pub struct Proposal {
    pub view: u32,
    pub what: Content,
    pub just: Certificate,
}

/// A vote: what it is for, and the voter's signature.
#[derive(Drop)]
pub struct SignedVote {
    pub poll: Poll,
    pub sig: Bytes,
}
