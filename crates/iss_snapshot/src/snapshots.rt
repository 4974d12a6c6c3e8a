//! What a snapshot holds.
use iss_checkpoint::{Cert, Vote};
use iss_request::{Bytes, Epoch, Request, Seq, Value};

/// The kind of a snapshot among a journal's entries.
pub const KIND: u8 = 5;

/// The epochs from `from` to before `to`.
#[derive(Clone, Copy, Debug, PartialEq, Eq)]
pub struct Span {
    pub from: Epoch,
    pub to: Epoch,
}

/// A replica as it enters the epoch `to`. The snapshot before it, if there is one, ends at `from`.
#[derive(Drop)]
pub struct Snapshot {
    pub from: Epoch,
    pub to: Epoch,
    /// By epoch: the values of its slots, in order.
    pub epochs: Seq<Seq<Value>>,
    /// The next unused leaf of the replica's key.
    pub leaf: u32,
    /// The waiting requests, in order.
    pub waiting: Seq<Request>,
    /// The certificates that no earlier snapshot has, by epoch.
    pub certs: Seq<Cert>,
    /// The votes of epochs without a certificate, in the order in which they were counted.
    pub votes: Seq<Vote>,
    /// The packets that came early for the epoch `to`, in order.
    pub early: Seq<Bytes>,
}
