//! Why a node's loop gives up.
ghost use Rattle.std.specs.Prelude.{◌≡◌};
ghost use Rattle.iss_cluster.specs.declared.errors.NodeFailure.{NodeFailure};

use iss_journal::AttachError;
use iss_loops::NodeError;
use iss_request::NoMemory;

/// Why a node gave up.
#[derive(Clone, Copy, Debug, PartialEq, Eq)]
pub enum NodeFailure {
    /// The links failed, and their count of faults increased.
    LinksFault,
    /// The disk failed, and its count of faults increased.
    DiskFault,
    /// The journal is damaged at this offset.
    Damaged { at: u64 },
    /// Out of memory.
    NoMemory,
}

impl From<AttachError> for NodeFailure {
    ghost use Rattle.iss_cluster.specs.Failures.{of_journal};

    ghost from_gives = { λ e f. f ≡ of_journal e };

    fn from(error: AttachError) -> Self {
        match error {
            AttachError::Failed => NodeFailure::DiskFault,
            AttachError::Damaged { at } => NodeFailure::Damaged { at },
            AttachError::NoMemory => NodeFailure::NoMemory,
        }
    }
}

impl From<NodeError> for NodeFailure {
    ghost use Rattle.iss_cluster.specs.Failures.{of_loop};

    ghost from_gives = { λ e f. f ≡ of_loop e };

    fn from(error: NodeError) -> Self {
        match error {
            NodeError::LinksFault => NodeFailure::LinksFault,
            NodeError::DiskFault => NodeFailure::DiskFault,
            NodeError::NoMemory => NodeFailure::NoMemory,
        }
    }
}

impl From<NoMemory> for NodeFailure {
    ghost from_gives = { λ _ f. f ≡ NodeFailure.NoMemory };

    fn from(_: NoMemory) -> Self {
        NodeFailure::NoMemory
    }
}
