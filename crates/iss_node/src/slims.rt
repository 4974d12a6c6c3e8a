//! Which cores a node refines. A theorem, as a call without a body: calling it makes its contract available.
ghost use Rattle.std.specs.Prelude.{◌≡◌};
ghost use Rattle.iss_rules.specs.Concrete.{rules_of};
ghost use Rattle.iss_model.specs.Node.{Core};
ghost use Rattle.iss_model.specs.Slims.{IsPlaced, slim};
ghost use Rattle.iss_node.specs.State.{NodeView, RefinesCore};

use iss_sb::Sequenced;

/// A node that refines a core refines each placed core with the same slim part: it keeps no instance of an earlier
/// epoch, and no vote of an epoch with a certificate. So what its calls promise holds of each of these cores.
// rule: Epochs: Of earlier epochs a node keeps the log, the certificates and what follows from these alone
pub fn nodes_stand_for_slims<M: Sequenced>()
    ensures { (v : NodeView M M.Msg) → (c d : Core M.Msg) → RefinesCore M.spec M.refines v c →
        IsPlaced (rules_of v.state.setup) M.spec v.state.me.0 d →
        slim (rules_of v.state.setup) M.spec v.state.me.0 c ≡ slim (rules_of v.state.setup) M.spec v.state.me.0 d →
        RefinesCore M.spec M.refines v d }
{}
