//! The answers of a node.
use iss_request::{Batch, Bytes, NodeId, Seq, Slot};
use iss_rules::Why;
use iss_sb::{Claim, To};
use std::alloc::Global;

/// What an accepted event produced.
#[derive(Drop)]
pub struct Outcome {
    /// Packets to send, in the order in which they were made.
    pub sends: Seq<(To, Bytes)>,
    /// The signatures in them that the node itself made.
    pub own: Seq<Claim>,
    /// The signatures claimed by early messages that were now tried, also by those that were refused.
    pub early: Seq<Claim>,
    /// The strings that were hashed, in order.
    pub hashed: Seq<Bytes>,
    /// If the event entered an epoch: the snapshot that takes its place in a journal, unless that is too long.
    pub entered: Option<Bytes>,
}

impl Outcome {
    ghost use Rattle.std.specs.Prelude.{◌≡◌, [], None};

    /// An empty outcome.
    pub fn nothing(alloc: Global) -> Outcome
        ensures { result ≡ record { sends = []; own = []; early = []; hashed = []; entered = None } }
    {
        Outcome {
            sends: Seq::new(alloc),
            own: Seq::new(alloc),
            early: Seq::new(alloc),
            hashed: Seq::new(alloc),
            entered: None,
        }
    }
}

/// A node's answer to an event. `NoMemory` leaves the node stale. `Stale` if and only if the node ran out of memory in
/// an earlier event, or has retreated.
#[derive(Drop)]
pub enum Answer {
    Taken(Outcome),
    Dropped(Why),
    NoMemory,
    Stale,
}

/// The result of a step, while memory suffices: its outcome, or why the event was dropped.
pub type StepResult = Result<Outcome, Why>;

/// A batch that a leader's instance accepted for a slot.
#[derive(Drop)]
pub struct Accepted {
    pub leader: NodeId,
    pub slot: Slot,
    pub batch: Batch,
}

/// A module's message that arrived one epoch early.
#[derive(Drop)]
pub struct Early<T> {
    pub from: NodeId,
    pub leader: NodeId,
    pub msg: T,
}
