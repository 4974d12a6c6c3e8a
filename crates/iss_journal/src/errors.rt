// The errors of a journal.
ghost use Rattle.std.specs.Prelude.{◌≡◌};
ghost use Rattle.iss_journal.specs.declared.errors.AttachError.{AttachError};

use iss_disk::{EndError, Failed, NoMemory};
use std::alloc::AllocError;

/// Why `attach` failed.
#[derive(Clone, Copy, Debug, PartialEq, Eq)]
pub enum AttachError {
    /// No whole entry follows the open gate at offset `at`.
    Damaged { at: u64 },
    /// A call of the device failed, and the count of faults increased.
    Failed,
    /// Out of memory.
    NoMemory,
}

impl From<Failed> for AttachError {
    ghost from_gives = { λ _ e. e ≡ AttachError.Failed };

    fn from(_: Failed) -> Self {
        AttachError::Failed
    }
}

impl From<NoMemory> for AttachError {
    ghost from_gives = { λ _ e. e ≡ AttachError.NoMemory };

    fn from(_: NoMemory) -> Self {
        AttachError::NoMemory
    }
}

impl From<AllocError> for AttachError {
    ghost from_gives = { λ _ e. e ≡ AttachError.NoMemory };

    fn from(_: AllocError) -> Self {
        AttachError::NoMemory
    }
}

impl From<EndError> for AttachError {
    ghost use Rattle.iss_disk.specs.declared.errors.EndError.{EndError};

    ghost from_gives = { λ end e. ((end ≡ EndError.Failed) → e ≡ AttachError.Failed)
        × ((end ≡ EndError.NoMemory) → e ≡ AttachError.NoMemory) };

    fn from(error: EndError) -> Self {
        match error {
            EndError::Failed => AttachError::Failed,
            EndError::NoMemory => AttachError::NoMemory,
        }
    }
}
