//! What the laws of a module imply.
ghost use Rattle.iss_sb.specs.Laws.{IsSafe};

use crate::sequenced::Sequenced;

/// Every reachable world of an instance satisfies agreement, no duplication and integrity, unless SHA-256 collides on
/// its strings (ISS, "Sequenced Broadcast"). A theorem, as a call without a body: calling it makes its contract
/// available.
pub fn broadcast<M: Sequenced>()
    ensures { IsSafe M.spec }
{
    M::laws()
}
