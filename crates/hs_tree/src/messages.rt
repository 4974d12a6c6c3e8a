//! The messages of HotStuff.
use crate::certificates::Certificate;
use iss_request::Bytes;
use iss_sb::Content;

/// What a vote is for: a phase and a view of the node with this digest.
#[derive(Clone, Copy)]
pub struct Poll {
    pub phase: u8,
    pub view: u32,
    pub digest: [u8; 32],
}

/// The body of a message. `NewView` starts a round with the sender's highest prepareQC. `Prepare` proposes a node with
/// the parent that `just` certifies. `PreCommit`, `Commit` and `Decide` broadcast the certificates of the three
/// phases. `Vote` is a vote of a phase.
#[derive(Drop)]
pub enum Body {
    NewView {
        round: u16,
        high: Certificate,
    },
    Prepare {
        view: u32,
        what: Content,
        just: Certificate,
    },
    PreCommit {
        view: u32,
        shown: Certificate,
    },
    Commit {
        view: u32,
        shown: Certificate,
    },
    Decide {
        view: u32,
        shown: Certificate,
    },
    Vote {
        phase: u8,
        view: u32,
        digest: [u8; 32],
    },
}

/// A message of HotStuff: its body, and its sender's signature of the body's statement.
#[derive(Drop)]
pub struct Message {
    pub body: Body,
    pub sig: Bytes,
}
