//! How a node votes on its log at the end of an epoch, and counts votes (PBFT and ISS: checkpoints).
ghost use Rattle.std.specs.Prelude.{◌≡◌, ◌+◌, suc, IfOk, nat_lt, slice_get};
ghost use Rattle.iss_model.specs.Node.{takes_vote};
ghost use Rattle.iss_node.specs.Internal.Ready.{MayVote};
ghost use Rattle.iss_node.specs.Internal.Votes.{IsVoteHandedOut, IsVoted};
ghost use Rattle.iss_node.specs.Steps.{IsHeldStepOf, IsLater, IsSameNode};

use crate::answers::{Outcome, StepResult};
use crate::state::NodeState;
use iss_ballots::{Taking, claim_of_vote, pack_vote};
use iss_checkpoint::{Vote, vote_statement};
use iss_keys::SignError;
use iss_log::End;
use iss_request::{Bytes, Epoch, NoMemory, Seq};
use iss_rules::Why;
use iss_sb::{Sequenced, To};
use std::alloc::Global;

impl<M: Sequenced> NodeState<M> {
    /// The node's vote on its complete epoch, signed by the next leaf. The only error is out of memory.
    // rule: Checkpoints: A node whose log ends an epoch votes to all on the log's chain and request count
    pub(crate) fn vote(&mut self) -> Result<Vote, NoMemory>
        requires { MayVote M.spec M.refines self.old }
        ensures voted { IfOk result (λ v. IsVoted self.old self.new v) }
        ensures later { IsLater self.old self.new }
    {
        let Some(end) = self.end() else {
            unreachable!();
        };
        let chain = end.chain;
        let requests = end.requests;
        let statement = vote_statement(&self.setup.tag, self.epoch.0, &chain, requests);
        match self.keys.sign(&statement) {
            Ok(sig) => Ok(Vote {
                epoch: self.epoch,
                chain,
                requests,
                by: self.me,
                sig: Bytes::of(sig),
            }),
            Err(SignError::NoMemory) => Err(NoMemory),
            Err(SignError::Spent) => unreachable!(),
        }
    }

    // The digest and the number of requests of the log at the end of the current epoch.
    fn end(&self) -> Option<End>
        ensures { result ≡ slice_get self.now.chains.ends (self.now.plan.start + self.now.setup.epoch) }
    {
        let slots = self.layout.first().0 + self.setup.epoch;
        self.chains.end_at(slots as usize)
    }

    /// The outcome that sends the vote to all, with the node's signature.
    pub(crate) fn hand_out_vote(&self, alloc: Global, vote: &Vote) -> Result<Outcome, NoMemory>
        ensures { IfOk result (IsVoteHandedOut self.now vote.now) }
    {
        let mut sends = Seq::new(alloc);
        sends.push((To::All, pack_vote(alloc, self.setup.version, vote)?))?;
        let mut own = Seq::new(alloc);
        own.push(claim_of_vote(alloc, &self.setup.tag, vote)?)?;
        Ok(Outcome {
            sends,
            own,
            early: Seq::new(alloc),
            hashed: Seq::new(alloc),
            entered: None,
        })
    }

    /// Counts a vote on an epoch up to the next one, unless it is refused.
    // rule: Checkpoints: A node drops a vote that is far ahead, unverified or known, and counts any other
    pub(crate) fn take_vote(&mut self, alloc: Global, vote: Vote) -> Result<StepResult, NoMemory>
        ensures answer { IfOk result
            (λ a. IsHeldStepOf M.spec M.refines (Unit {0}) self.old (λ F R me c. takes_vote R c vote) self.new a) }
        ensures same { IsSameNode self.old self.new }
    {
        if is_far(self.epoch, vote.epoch) {
            return Ok(Err(Why::OtherEpoch));
        }
        match self.ballots.take(vote)? {
            Taking::Counted => Ok(Ok(Outcome::nothing(alloc))),
            Taking::BadSignature => Ok(Err(Why::BadClaim)),
            Taking::Known => Ok(Err(Why::Known)),
        }
    }
}

// Whether `other` is more than one epoch ahead.
fn is_far(epoch: Epoch, other: Epoch) -> bool
    ensures { result ≡ nat_lt (suc epoch.0) other.0 }
{
    epoch.0 < other.0 && other.0 - epoch.0 > 1
}
