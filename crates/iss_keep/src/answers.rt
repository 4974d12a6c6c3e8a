// The answers of a kept node.
ghost use Rattle.std.specs.Prelude.{◌≡◌};
ghost use Rattle.iss_keep.specs.Internal.Keeping.{released};
ghost use Rattle.iss_keep.specs.Steps.{makes_stale};

use iss_disk::{EndError, Failed};
use iss_node::Answer;

// Whether the node has to be reopened, given its answer and the result of the append.
#[inline(always)]
pub(crate) fn makes_stale(made: &Answer, kept: &Result<(), EndError>) -> bool
    ensures { result ≡ makes_stale (released made.now kept.now) }
{
    match (made, kept) {
        (Answer::Taken(_), Ok(())) => false,
        (Answer::Dropped(_), Ok(())) => false,
        _ => true,
    }
}

// Releases the node's answer only if the append succeeded.
#[inline(always)]
pub(crate) fn release(made: Answer, kept: Result<(), EndError>) -> Result<Answer, Failed>
    ensures { result ≡ released made kept }
{
    match kept {
        Ok(()) => Ok(made),
        Err(EndError::Failed) => {
            drop(made);
            Err(Failed)
        }
        Err(EndError::NoMemory) => {
            drop(made);
            Ok(Answer::NoMemory)
        }
    }
}
