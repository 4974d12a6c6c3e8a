//! The inputs of a module, and the effects of a step.
ghost use Rattle.std.specs.Prelude.{◌≡◌};
ghost use Rattle.iss_base.specs.Lists.{nth};
ghost use Rattle.iss_sb.specs.Calls.{is_slot};

use iss_keys::SharedDirectory;
use iss_request::{Batch, Bytes, Epoch, NoMemory, NodeId, Seq, Setup, Slot, Value};
use std::alloc::Global;

/// An input of an instance.
#[derive(Drop)]
pub enum Input<M> {
    /// A batch to propose at a slot, at the leader.
    Cast { slot: Slot, batch: Batch },
    /// A message from a node. The host has checked each signature that it claims.
    Receive { from: NodeId, msg: M },
    /// The timer of the segment fired.
    Timeout,
}

/// The recipients of a message. A send to all includes the sender.
#[derive(Clone, Copy, Debug, PartialEq, Eq)]
pub enum To {
    All,
    One(NodeId),
}

/// A claim in a message: node `by` signed `statement`, with signature `sig`. It may be false.
#[derive(Drop)]
pub struct Claim {
    pub by: NodeId,
    pub statement: Bytes,
    pub sig: Bytes,
}

/// What an instance is started with: its epoch, its leader, the slots of the leader's segment (strictly ascending), and
/// the public keys of nodes and clients.
#[derive(Drop)]
pub struct Params {
    pub setup: Setup,
    pub epoch: Epoch,
    pub leader: NodeId,
    pub slots: Seq<Slot>,
    pub directory: SharedDirectory,
}

/// Whether `slot` is the slot at this place of the segment.
pub fn is_next(p: &Params, place: usize, slot: Slot) -> bool
    ensures { result ≡ is_slot slot.0 (nth p.now.slots place) }
{
    match p.slots.as_slice().get(place) {
        Some(next) => *next == slot,
        None => false,
    }
}

/// Why a step was not made.
#[derive(Clone, Copy, Debug, PartialEq, Eq)]
pub enum StepError {
    /// Fewer one-time leaves are left than the step may use. Nothing changed.
    Spent,
    /// Out of memory. The contract promises nothing of the instance.
    NoMemory,
}

impl From<NoMemory> for StepError {
    ghost use Rattle.std.specs.Prelude.{◌≡◌};
    ghost use Rattle.iss_sb.specs.declared.effects.StepError.TheVariants.{NoMemory};

    ghost from_gives = { λ _ e. e ≡ NoMemory };

    fn from(_error: NoMemory) -> StepError {
        StepError::NoMemory
    }
}

/// The effects of a step: messages to send, the batch that it accepted, the slots that it delivers (ascending), and the
/// strings that it hashed.
#[derive(Drop)]
pub struct Effects<M> {
    pub sends: Seq<(To, M)>,
    pub accepted: Option<(Slot, Batch)>,
    pub delivers: Seq<(Slot, Value)>,
    pub hashed: Seq<Bytes>,
}

impl<M: Drop> Effects<M> {
    ghost use Rattle.iss_sb.specs.Calls.{IsNothing};

    /// No effects.
    pub fn nothing(alloc: Global) -> Effects<M>
        ensures { IsNothing result }
    {
        Effects {
            sends: Seq::new(alloc),
            accepted: None,
            delivers: Seq::new(alloc),
            hashed: Seq::new(alloc),
        }
    }
}
