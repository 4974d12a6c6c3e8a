//! Why a text is not a certified log.
use iss_request::{Epoch, NoMemory as OutOfMemory};
use iss_schedule::{LineFault, ReadError};

/// What is wrong with an epoch. If both hold, the first counts.
#[derive(Clone, Copy, Debug, PartialEq, Eq)]
pub enum EpochFault {
    /// The certificate is not signed by exactly a quorum of different nodes.
    BadCert,
    /// The certificate states another chain digest or number of requests than that of the values so far.
    WrongChain,
}

/// Why a text is not a certified log.
#[derive(Clone, Copy, Debug, PartialEq, Eq)]
pub enum AuditError {
    /// The first bad line, counted from 1, and what is wrong with it.
    BadLine { line: u32, why: LineFault },
    /// Each line is well-formed. The first epoch that is not certified, and what is wrong with it.
    BadEpoch { epoch: Epoch, why: EpochFault },
    /// Out of memory.
    NoMemory,
}

impl From<OutOfMemory> for AuditError {
    ghost use Rattle.std.specs.Prelude.{◌≡◌};
    ghost use Rattle.iss_audit.specs.declared.errors.AuditError.TheVariants.{NoMemory};

    ghost from_gives = { λ _ e. e ≡ NoMemory };

    fn from(_error: OutOfMemory) -> AuditError {
        AuditError::NoMemory
    }
}

impl From<ReadError> for AuditError {
    ghost use Rattle.std.specs.Prelude.{◌≡◌};
    ghost use Rattle.iss_audit.specs.Refusals.{as_read};

    ghost from_gives = { λ r e. e ≡ as_read r };

    fn from(error: ReadError) -> AuditError {
        match error {
            ReadError::BadLine { line, why } => AuditError::BadLine { line, why },
            ReadError::NoMemory => AuditError::NoMemory,
        }
    }
}
