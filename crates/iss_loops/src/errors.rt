// Why loops give up.
ghost use Rattle.std.specs.Prelude.{◌≡◌};
ghost use Rattle.iss_loops.specs.declared.errors.LoopError.{LoopError};
ghost use Rattle.iss_loops.specs.declared.errors.NodeError.{NodeError};

use crate::node::StepError;
use std::alloc::{AllocError, AllocFailed};

/// Why a loop gives up.
#[derive(Clone, Copy, Debug, PartialEq, Eq)]
pub enum LoopError {
    /// The links failed, and their count of faults increased.
    LinksFault,
    /// Out of memory.
    NoMemory,
}

impl From<iss_links::EndError> for LoopError {
    ghost use Rattle.iss_loops.specs.Errors.{as_loop_error};

    ghost from_gives = { λ e l. l ≡ as_loop_error e };

    fn from(error: iss_links::EndError) -> Self {
        match error {
            iss_links::EndError::Failed => LoopError::LinksFault,
            iss_links::EndError::NoMemory => LoopError::NoMemory,
        }
    }
}

impl From<iss_request::NoMemory> for LoopError {
    ghost from_gives = { λ _ e. e ≡ LoopError.NoMemory };

    fn from(_: iss_request::NoMemory) -> Self {
        LoopError::NoMemory
    }
}

impl From<AllocError> for LoopError {
    ghost from_gives = { λ _ e. e ≡ LoopError.NoMemory };

    fn from(_: AllocError) -> Self {
        LoopError::NoMemory
    }
}

impl<T: Drop> From<AllocFailed<T>> for LoopError {
    ghost from_gives = { λ _ e. e ≡ LoopError.NoMemory };

    fn from(_: AllocFailed<T>) -> Self {
        LoopError::NoMemory
    }
}

/// Why a node's loop gives up.
#[derive(Clone, Copy, Debug, PartialEq, Eq)]
pub enum NodeError {
    /// The links failed, and their count of faults increased.
    LinksFault,
    /// The disk failed, and its count of faults increased.
    DiskFault,
    /// Out of memory.
    NoMemory,
}

impl From<LoopError> for NodeError {
    ghost use Rattle.iss_loops.specs.Errors.{of_loop};

    ghost from_gives = { λ e n. n ≡ of_loop e };

    fn from(error: LoopError) -> Self {
        match error {
            LoopError::LinksFault => NodeError::LinksFault,
            LoopError::NoMemory => NodeError::NoMemory,
        }
    }
}

impl From<iss_links::EndError> for NodeError {
    ghost use Rattle.iss_loops.specs.Errors.{of_links};

    ghost from_gives = { λ e n. n ≡ of_links e };

    fn from(error: iss_links::EndError) -> Self {
        match error {
            iss_links::EndError::Failed => NodeError::LinksFault,
            iss_links::EndError::NoMemory => NodeError::NoMemory,
        }
    }
}

impl From<StepError> for NodeError {
    ghost use Rattle.iss_loops.specs.Errors.{of_step};

    ghost from_gives = { λ e n. n ≡ of_step e };

    fn from(error: StepError) -> Self {
        match error {
            StepError::DiskFault => NodeError::DiskFault,
            StepError::NoMemory => NodeError::NoMemory,
        }
    }
}

impl From<iss_request::NoMemory> for NodeError {
    ghost from_gives = { λ _ e. e ≡ NodeError.NoMemory };

    fn from(_: iss_request::NoMemory) -> Self {
        NodeError::NoMemory
    }
}
