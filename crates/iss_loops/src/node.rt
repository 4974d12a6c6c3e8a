// What a loop sees of one node with its journal.
ghost use Rattle.std.specs.Prelude.{◌≡◌, ◌<◌, ◌≤◌, ℕ, List, IfOk, IsErrOf};
ghost use Rattle.iss_disk.specs.Calls.{HasCause as HasDiskCause, Place};
ghost use Rattle.iss_loops.specs.Behavior.{AreNodes};
ghost use Rattle.iss_loops.specs.NodeBehavior.{FailsAt, GoTo, IsOpen, IsStep, NamesNodes, NodeBehavior};
ghost use Rattle.iss_rules.specs.declared.events.NodeEvent.{NodeEvent as ModelEvent};

use iss_request::{Bytes, NoMemory, NodeId, Seq};
use iss_rules::NodeEvent;
use iss_sb::To;

/// What came of an event.
#[derive(Drop)]
pub enum NodeStep {
    /// It was accepted, and is in the journal. These are its sends.
    Taken(Seq<(To, Bytes)>),
    /// It was dropped.
    Dropped,
}

/// Why a node with a journal gives up.
#[derive(Clone, Copy, Debug, PartialEq, Eq)]
pub enum StepError {
    /// The disk failed, and its count of faults increased.
    DiskFault,
    /// Out of memory.
    NoMemory,
}

/// A node with its journal. After an error it has to be reopened.
pub trait JournaledNode {
    /// How many nodes there are.
    ghost nodes: { Self → ℕ };

    /// It does this, and has accepted these events since it was opened, oldest first. So nothing of a node that has to
    /// be reopened.
    ghost has: { Self → NodeBehavior → List ModelEvent → Type 0 };

    /// How many calls of its disk have failed.
    ghost faults: { Self → ℕ };

    /// The file of its journal, and which disk it is on.
    ghost place: { Self → Place };

    /// Every crash leaves in its journal what stays of these events, or of these and this one behind them.
    ghost leaves: { Self → NodeBehavior → List ModelEvent → ModelEvent → Type 0 };

    /// Takes an event. One that it accepts is in the journal before its sends are released.
    fn take(&mut self, event: NodeEvent) -> Result<NodeStep, StepError>
        requires open { IsOpen (has self.old) }
        requires nodes { NamesNodes (nodes self.old) event }
        ensures step { IfOk result (λ step. (B : NodeBehavior) (events : List ModelEvent) → has self.old B events →
            IsStep B events event (has self.new B) step) }
        ensures addressed { IfOk result (GoTo (nodes self.old)) }
        ensures cut { IsErrOf result StepError.DiskFault → (B : NodeBehavior) (events : List ModelEvent) →
            has self.old B events → FailsAt B (leaves self.new B) events event }
        ensures cause { HasDiskCause (faults self.old) (faults self.new) (IsErrOf result StepError.DiskFault) }
        ensures place { place self.new ≡ place self.old }
        ensures same { nodes self.new ≡ nodes self.old };

    /// Whether it leads its epoch and has a free slot to propose at.
    fn castable(&self) -> bool
        ensures { (B : NodeBehavior) (events : List ModelEvent) → has self.now B events →
            result ≡ B.castable events };

    /// The leaders whose segments it has not filled, ascending.
    fn unfilled(&self) -> Result<Seq<NodeId>, NoMemory>
        requires { IsOpen (has self.now) }
        ensures leaders { IfOk result (λ leaders. (B : NodeBehavior) (events : List ModelEvent) →
            has self.now B events → leaders ≡ B.unfilled events) }
        ensures nodes { IfOk result (λ leaders. AreNodes (nodes self.now) leaders) };

    /// How many nodes there are.
    fn nodes(&self) -> u32
        ensures nodes { result ≡ nodes self.now }
        ensures is { (B : NodeBehavior) (events : List ModelEvent) → has self.now B events → B.setup.n ≡ result }
        ensures few { result ≤ 64 };

    /// Which of them it is.
    fn me(&self) -> u32
        ensures is { (B : NodeBehavior) (events : List ModelEvent) → has self.now B events → B.me ≡ result }
        ensures node { result < nodes self.now };
}
