//! The events of a node, and why an event or a batch is refused.
use iss_request::{Bytes, NodeId};

/// An event of one node. There are four kinds.
#[derive(Drop)]
pub enum NodeEvent {
    /// Bytes arrive from the network.
    Packet(Bytes),
    /// The node proposes a batch at its next free slot.
    Propose,
    /// The timer of this leader's segment fires.
    Timeout(NodeId),
    /// The node asks this peer for the epoch that it is in (state transfer).
    AskFrom(NodeId),
}

/// Why the judge refuses a batch in a segment. The reasons are tested in this order.
#[derive(Clone, Copy, Debug, PartialEq, Eq)]
pub enum Refusal {
    /// The batch has more requests than the set-up allows.
    TooLarge,
    /// The leader does not own a request's bucket in this epoch.
    ForeignBucket,
    /// A request's client does not exist, or its signature is invalid.
    BadSignature,
    /// A request's number is outside its client's window.
    OutOfWindow,
    /// The log of earlier epochs holds a request.
    Ordered,
    /// A request was already accepted in this instance, or occurs twice in the batch.
    Marked,
}

/// Why an event was lost or dropped. The core is unchanged and sends nothing.
#[derive(Clone, Copy, Debug, PartialEq, Eq)]
pub enum Why {
    /// No packet has this number yet.
    NoPacket,
    /// The core's disk has failed, in this event or since the core's last recovery.
    Stopped,
    /// The bytes are no packet.
    NotPacket,
    /// The request's client does not exist, or its signature is invalid.
    BadRequest,
    /// The request waits, is in flight, or is in the log. Or the vote's signer was counted for its epoch, or the epoch
    /// is certified.
    Known,
    /// The request's number is outside its client's window.
    OutOfWindow,
    /// The message is of a past epoch, or of one more than one ahead. Or the vote is of an epoch more than one ahead.
    /// Or the piece is of a later epoch than the node's, or its values or certificate do not fit its epoch.
    OtherEpoch,
    /// The message is of the next epoch, and no more of these are kept.
    EarlyFull,
    /// The leader of the addressed instance does not lead the epoch, or the node that should propose does not.
    NotLeader,
    /// A signature that the message claims is invalid.
    BadClaim,
    /// The node's segment has no free slot to propose at.
    NothingToCast,
    /// Too few one-time leaves are left. One is kept back for the checkpoint vote.
    NoKeys,
    /// The judge refuses the batch that the step would accept.
    Refused(Refusal),
    /// The node has no certificate of the epoch that a peer asks for, or its log lacks a slot of it.
    NoCert,
    /// The piece is of an epoch that the node has ended.
    NotNeeded,
    /// The values of the piece do not lead to the log that its certificate states.
    WrongChain,
}
