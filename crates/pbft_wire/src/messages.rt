//! The messages of PBFT, each with its sender's signature.
use iss_request::{Bytes, NodeId, Seq, Slot, Value};
use iss_sb::Signed;

/// A prepared certificate: the value was prepared at the slot in the view. It holds the signature of the primary's
/// PrePrepare, and those of the Prepares.
#[derive(Drop)]
pub struct Certificate {
    pub slot: Slot,
    pub view: u16,
    pub value: Value,
    pub sig: Bytes,
    pub prepares: Seq<Signed>,
}

/// A replica's ViewChange inside a NewView.
#[derive(Drop)]
pub struct Change {
    pub node: NodeId,
    pub view: u16,
    pub certificates: Seq<Certificate>,
    pub sig: Bytes,
}

/// The body of a message. A PrePrepare is the primary's proposal; a Prepare says that its sender accepted it, a Commit
/// that it is prepared. A ViewChange asks for a view and shows the sender's prepared certificates. A NewView starts a
/// view: `signatures` are the primary's on its PrePrepares, in the order of the slots.
#[derive(Drop)]
pub enum Body {
    PrePrepare {
        view: u16,
        slot: Slot,
        value: Value,
    },
    Prepare {
        view: u16,
        slot: Slot,
        digest: [u8; 32],
    },
    Commit {
        view: u16,
        slot: Slot,
        digest: [u8; 32],
    },
    ViewChange {
        view: u16,
        certificates: Seq<Certificate>,
    },
    NewView {
        view: u16,
        changes: Seq<Change>,
        signatures: Seq<Bytes>,
    },
}

/// A message of PBFT: its body, and its sender's signature of the body's statement.
#[derive(Drop)]
pub struct Message {
    pub body: Body,
    pub sig: Bytes,
}
