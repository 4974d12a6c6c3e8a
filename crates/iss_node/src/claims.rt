//! The signatures that messages claim.
ghost use Rattle.std.specs.Prelude.{◌≡◌, ◌<◌, ◌++◌, Some, IfOk, OnOk};
ghost use Rattle.std.specs.List.{list_all};
ghost use Rattle.iss_keys.specs.VerifiedBy.{is_verified_by};
ghost use Rattle.iss_rules.specs.Concrete.{rules_of};
ghost use Rattle.iss_rules.specs.Votes.{all_verify};
ghost use Rattle.iss_model.specs.Node.{claims_in, only_by, own_claims};
ghost use Rattle.iss_rules.specs.Past.{Past};
ghost use Rattle.iss_node.specs.Internal.Epochs.{AreParamsAt};
ghost use Rattle.iss_node.specs.Internal.Inputs.{IsHandedOut};
ghost use Rattle.iss_node.specs.State.{RefinesPast, led};
ghost use Rattle.iss_sb.specs.declared.effects.Claim.{Claim as SaidToSign};
ghost use Rattle.iss_segment.specs.Instance.{SegmentState};

use crate::answers::Outcome;
use crate::parcels::{Origin, pack};
use crate::state::NodeState;
use iss_keys::Directory;
use iss_request::{Bytes, NoMemory, NodeId, Seq};
use iss_sb::{Claim, Params, Sequenced, To};
use std::alloc::Global;

impl<M: Sequenced> NodeState<M> {
    /// The signatures that a message in `leader`'s instance claims. None if `leader` does not lead the epoch.
    pub(crate) fn claims_in(
        &self,
        alloc: Global,
        leader: NodeId,
        from: NodeId,
        msg: &M::Msg,
    ) -> Result<Seq<Claim>, NoMemory>
        requires { from.0 < self.now.setup.n }
        ensures { IfOk result (λ claims. (past : Past M.Msg) → RefinesPast M.spec M.refines self.now past →
            claims ≡ claims_in (rules_of self.now.setup) M.spec self.now.me.0 past from.0 leader.0 msg.now) }
    {
        let _setup = &self.setup;
        match self.segment(leader) {
            Some(segment) => M::claims(alloc, segment.params(), from, msg),
            None => Ok(Seq::new(alloc)),
        }
    }

    /// Whether every claimed signature is valid.
    // rule: Acceptance: A message with a claim that does not verify under its signer's key is dropped
    pub(crate) fn is_credible(&self, claims: &[Claim]) -> bool
        ensures { result ≡ all_verify (rules_of self.now.setup) claims.now }
    {
        all_verify(self.directory.directory(), claims)
    }

    /// The outcome of a step of `leader`'s instance: its messages as packets, the node's own signatures in them, and
    /// the strings that were hashed.
    pub(crate) fn hand_out(
        &self,
        alloc: Global,
        leader: NodeId,
        sends: &[(To, M::Msg)],
        hashed: Seq<Bytes>,
    ) -> Result<Outcome, NoMemory>
        ensures { IfOk result (IsHandedOut M.spec self.now leader.0 sends.now hashed) }
    {
        let own = self.own_in(alloc, leader, sends)?;
        let (node, epoch) = (self.me, self.epoch);
        let origin = Origin {
            node,
            epoch,
            leader,
        };
        let packets = pack::<M>(alloc, &self.setup, origin, sends)?;
        Ok(Outcome {
            sends: packets,
            own,
            early: Seq::new(alloc),
            hashed,
            entered: None,
        })
    }

    // The node's own signatures in the messages of `leader`'s instance.
    fn own_in(
        &self,
        alloc: Global,
        leader: NodeId,
        sends: &[(To, M::Msg)],
    ) -> Result<Seq<Claim>, NoMemory>
        ensures { IfOk result (λ own. (g : SegmentState M) → led self.now.segments leader.0 ≡ Some g →
            own ≡ own_claims M.spec g.params self.now.me.0 sends.now) }
    {
        let _setup = &self.setup;
        match self.segment(leader) {
            Some(segment) => own_claims::<M>(alloc, segment.params(), self.me, sends),
            None => Ok(Seq::new(alloc)),
        }
    }
}

// The node's own signatures in the messages that it sends.
// rule: Evidence: An outcome lists the node's own claims in all that it sends
fn own_claims<M: Sequenced>(
    alloc: Global,
    p: &Params,
    me: NodeId,
    sends: &[(To, M::Msg)],
) -> Result<Seq<Claim>, NoMemory>
    requires { AreParamsAt M.spec p.now me.0 }
    ensures { IfOk result (λ own. own ≡ own_claims M.spec p.now me.0 sends.now) }
{
    let mut own = Seq::new(alloc);
    for (_, msg) in sends {
        let claims = M::claims(alloc, p, me, msg)?;
        put_own(&mut own, me, claims)?;
    }
    Ok(own)
}

/// Appends those claims that name `me`.
pub fn put_own(own: &mut Seq<Claim>, me: NodeId, claims: Seq<Claim>) -> Result<(), NoMemory>
    ensures { OnOk result (own.new ≡ own.old ++ only_by me.0 claims) }
{
    for claim in claims.into_vec() {
        if claim.by.0 == me.0 {
            own.push(claim)?;
        }
    }
    Ok(())
}

// Whether every claimed signature is valid.
fn all_verify(directory: &Directory, claims: &[Claim]) -> bool
    ensures { result ≡ list_all
        (λ (c : SaidToSign). is_verified_by directory.now.nodes c.by.0 c.statement c.sig) claims.now }
{
    claims.iter().all(|claim| verifies(directory, claim))
}

// Whether the claimed signature is valid.
fn verifies(directory: &Directory, claim: &Claim) -> bool
    ensures { result ≡ is_verified_by directory.now.nodes claim.now.by.0 claim.now.statement claim.now.sig }
{
    let statement = claim.statement.as_slice();
    directory.verify_node(claim.by.0, statement, claim.sig.as_slice())
}
