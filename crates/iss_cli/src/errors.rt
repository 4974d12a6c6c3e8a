//! The errors of sources and sinks, and why there is no answer.
ghost use Rattle.std.specs.Prelude.{◌≡◌};
ghost use Rattle.iss_cli.specs.Errors.{status_without};

use crate::status::Status;
use iss_loops::NodeError;
use iss_request::NoMemory;
use std::alloc::AllocError;

/// A source or a sink failed, and its fault count grew.
#[derive(Clone, Copy, Debug, PartialEq, Eq)]
pub struct Failed;

/// Why bytes were not written or read.
#[derive(Clone, Copy, Debug, PartialEq, Eq)]
pub enum EndError {
    /// The source or the sink failed, and its fault count grew.
    Failed,
    /// Out of memory.
    NoMemory,
}

impl From<Failed> for EndError {
    ghost use Rattle.std.specs.Prelude.{◌≡◌};
    ghost use Rattle.iss_cli.specs.declared.errors.EndError.TheVariants.{Failed};

    ghost from_gives = { λ _ e. e ≡ Failed };

    fn from(_error: Failed) -> EndError {
        EndError::Failed
    }
}

impl From<NoMemory> for EndError {
    ghost use Rattle.std.specs.Prelude.{◌≡◌};
    ghost use Rattle.iss_cli.specs.declared.errors.EndError.TheVariants.{NoMemory};

    ghost from_gives = { λ _ e. e ≡ NoMemory };

    fn from(_error: NoMemory) -> EndError {
        EndError::NoMemory
    }
}

impl From<AllocError> for EndError {
    ghost use Rattle.std.specs.Prelude.{◌≡◌};
    ghost use Rattle.iss_cli.specs.declared.errors.EndError.TheVariants.{NoMemory};

    ghost from_gives = { λ _ e. e ≡ NoMemory };

    fn from(_error: AllocError) -> EndError {
        EndError::NoMemory
    }
}

/// Why there is no answer.
#[derive(Clone, Copy, Debug, PartialEq, Eq)]
pub enum AnswerError {
    /// The source failed, and its fault count grew.
    SourceFailed,
    /// The links failed, and their fault count grew.
    LinksFailed,
    /// The disk failed, and its fault count grew.
    DiskFailed,
    /// Out of memory.
    NoMemory,
}

impl From<EndError> for AnswerError {
    ghost use Rattle.std.specs.Prelude.{◌≡◌};
    ghost use Rattle.iss_cli.specs.Errors.{of_source};

    ghost from_gives = { λ e a. a ≡ of_source e };

    // An error of the source.
    fn from(error: EndError) -> AnswerError {
        match error {
            EndError::Failed => AnswerError::SourceFailed,
            EndError::NoMemory => AnswerError::NoMemory,
        }
    }
}

impl From<NodeError> for AnswerError {
    ghost use Rattle.std.specs.Prelude.{◌≡◌};
    ghost use Rattle.iss_cli.specs.Errors.{of_node};

    ghost from_gives = { λ e a. a ≡ of_node e };

    fn from(error: NodeError) -> AnswerError {
        match error {
            NodeError::LinksFault => AnswerError::LinksFailed,
            NodeError::DiskFault => AnswerError::DiskFailed,
            NodeError::NoMemory => AnswerError::NoMemory,
        }
    }
}

impl From<NoMemory> for AnswerError {
    ghost use Rattle.std.specs.Prelude.{◌≡◌};
    ghost use Rattle.iss_cli.specs.declared.errors.AnswerError.TheVariants.{NoMemory};

    ghost from_gives = { λ _ e. e ≡ NoMemory };

    fn from(_error: NoMemory) -> AnswerError {
        AnswerError::NoMemory
    }
}

/// How a call ends that has no answer.
pub fn status_without(error: AnswerError) -> Status
    ensures { result ≡ status_without error }
{
    match error {
        AnswerError::SourceFailed => Status::SourceFailed,
        AnswerError::LinksFailed => Status::LinksFailed,
        AnswerError::DiskFailed => Status::DiskFailed,
        AnswerError::NoMemory => Status::NoMemory,
    }
}
