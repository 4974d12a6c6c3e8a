//! The evidence that stops a run.
ghost use Rattle.std.specs.Prelude.{◌≡◌, IfOk};

use iss_request::{Bytes, NoMemory};
use iss_rules::Why;
use iss_sb::Claim;

/// Evidence that stops a run. `Forged`: a valid signature of a correct node that the node never made. `Collision`: two
/// different strings with one SHA-256 digest, of which `first` was hashed earlier.
#[derive(Drop)]
pub enum Evidence {
    Forged(Claim),
    Collision { first: Bytes, second: Bytes },
}

impl Evidence {
    /// A copy of the evidence. The only error is out of memory.
    pub fn copy(&self) -> Result<Evidence, NoMemory>
        ensures { IfOk result (λ end. end ≡ self.now) }
    {
        match self {
            Evidence::Forged(claim) => Ok(Evidence::Forged(copy_of(claim)?)),
            Evidence::Collision { first, second } => Ok(Evidence::Collision {
                first: first.copy()?,
                second: second.copy()?,
            }),
        }
    }
}

/// A copy of the claim. The only error is out of memory.
pub fn copy_of(claim: &Claim) -> Result<Claim, NoMemory>
    ensures { IfOk result (λ copy. copy ≡ claim.now) }
{
    Ok(Claim {
        by: claim.by,
        statement: claim.statement.copy()?,
        sig: claim.sig.copy()?,
    })
}

// What an event did: it was applied, it was lost for a reason, or it revealed evidence that stops the run.
#[derive(Drop)]
pub enum EventOutcome {
    Done,
    Lost(Why),
    Ended(Evidence),
}
