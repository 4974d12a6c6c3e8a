// The errors of links.
ghost use Rattle.std.specs.Prelude.{◌≡◌};
ghost use Rattle.iss_links.specs.declared.errors.EndError.{EndError};

use std::alloc::{AllocError, AllocFailed};

/// A call of links failed, and their count of faults increased.
#[derive(Clone, Copy, Debug, PartialEq, Eq)]
pub struct Failed;

/// Out of memory.
#[derive(Clone, Copy, Debug, PartialEq, Eq)]
pub struct NoMemory;

/// Why a call of links failed.
#[derive(Clone, Copy, Debug, PartialEq, Eq)]
pub enum EndError {
    /// The call failed, and the count of faults increased.
    Failed,
    /// Out of memory.
    NoMemory,
}

impl From<AllocError> for NoMemory {
    fn from(_: AllocError) -> Self {
        NoMemory
    }
}

impl<T: Drop> From<AllocFailed<T>> for NoMemory {
    fn from(_: AllocFailed<T>) -> Self {
        NoMemory
    }
}

impl From<NoMemory> for EndError {
    ghost from_gives = { λ _ e. e ≡ EndError.NoMemory };

    fn from(_: NoMemory) -> Self {
        EndError::NoMemory
    }
}

impl From<Failed> for EndError {
    ghost from_gives = { λ _ e. e ≡ EndError.Failed };

    fn from(_: Failed) -> Self {
        EndError::Failed
    }
}

impl From<AllocError> for EndError {
    ghost from_gives = { λ _ e. e ≡ EndError.NoMemory };

    fn from(_: AllocError) -> Self {
        EndError::NoMemory
    }
}

impl<T: Drop> From<AllocFailed<T>> for EndError {
    ghost from_gives = { λ _ e. e ≡ EndError.NoMemory };

    fn from(_: AllocFailed<T>) -> Self {
        EndError::NoMemory
    }
}
