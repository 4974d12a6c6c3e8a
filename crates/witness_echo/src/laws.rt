//! The composition theorem holds of a concrete cluster over echo. The function computes nothing: its contract is the
//! theorem.
ghost use Rattle.witness_echo.specs.Shown.{IsWitness};

use iss_composition::composition;
use sb_echo::Echo;

/// Four nodes, one of them faulty, run an instance of echo. One casts a batch, and another delivers it by a quorum of
/// echoes that includes the faulty node. The composition theorem holds of them.
pub fn echo_in_a_cluster()
    ensures { IsWitness }
{
    composition::<Echo>();
}
