//! Domain separation of signed statements. A theorem, as a call without a body: calling it makes its contract
//! available.
ghost use Rattle.std.specs.Prelude.{◌≡◌, ℕ, List, ◌++◌, length};
ghost use Rattle.iss_base.specs.Lists.{In};
ghost use Rattle.iss_request.specs.declared.setups.Setup.{Setup};
ghost use Rattle.iss_sb.specs.Calls.{IsGoodParams};
ghost use Rattle.iss_sb.specs.Statements.{head_of};
ghost use Rattle.iss_sb.specs.declared.effects.Claim.{Claim};
ghost use Rattle.iss_sb.specs.declared.effects.Params.{Params};
ghost use Rattle.iss_composition.specs.Cluster.{vote_statement};
ghost use Rattle.iss_composition.specs.Instances.{IsInstance, IsSameVote};

use iss_sb::Sequenced;

/// A signature made in one instance is worthless in all others. Equal statements are of one cluster, epoch, leader and
/// module (`one`). A statement with some head is a claim only of the instance that the head names (`head`). No
/// instance's claim is a checkpoint vote (`vote`), and equal votes certify the same log (`votes`). It is assumed that
/// the digests of clusters have the same length.
pub fn claims_are_of_one_instance<M: Sequenced>()
    ensures one { (p q : Params) (i j : ℕ) (a b : M.Msg) (c d : Claim) →
        In c (M.spec.claims p i a) → In d (M.spec.claims q j b) →
        length p.setup.tag ≡ length q.setup.tag → c.statement ≡ d.statement →
        IsInstance q M.spec.tag p.setup.tag p.epoch.0 p.leader.0 M.spec.tag }
    ensures head { (p : Params) (i : ℕ) (a : M.Msg) (c : Claim) → In c (M.spec.claims p i a) →
        (cluster : List ℕ) (e l tag : ℕ) (rest : List ℕ) → length cluster ≡ length p.setup.tag →
        c.statement ≡ head_of cluster e l tag ++ rest → IsInstance p M.spec.tag cluster e l tag }
    ensures vote { (s : Setup) (p : Params) (i : ℕ) (a : M.Msg) (c : Claim) →
        IsGoodParams M.spec p → In c (M.spec.claims p i a) → length s.tag ≡ length p.setup.tag →
        (e number : ℕ) (chain : List ℕ) → c.statement ≡ vote_statement s e chain number → ⊥ }
    ensures votes { (s t : Setup) → length s.tag ≡ length t.tag → (e d : ℕ) (a b : List ℕ) (q r : ℕ) →
        vote_statement s e a q ≡ vote_statement t d b r → IsSameVote s.tag t.tag e d a b q r }
{
    M::laws();
}
