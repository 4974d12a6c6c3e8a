//! The outcome of a rule and the effect of an input, not yet signed.
ghost use Rattle.std.specs.Prelude.{◌≤◌, Some, IfOk};
ghost use Rattle.iss_keys.specs.KeyStates.{left_of};
ghost use Rattle.sb_hotstuff.specs.Internal.Instances.{IsSigned};
ghost use Rattle.sb_hotstuff.specs.Steps.{IsAlone, IsAnswer, IsQuiet};

use crate::hotstuff::HotStuff;
use hs_tree::Message;
use hs_views::{Draft, send};
use iss_keys::Keys;
use iss_request::{Batch, Bytes, NoMemory, Seq, Slot, Value};
use iss_sb::Effects;
use sb_context::Context;
use std::alloc::Global;

/// The answer and the proposal of a step, both unsigned, and the strings that were hashed.
#[derive(Drop)]
pub struct Outcome {
    pub answer: Option<Draft>,
    pub proposal: Option<Draft>,
    pub hashed: Seq<Bytes>,
}

impl Outcome {
    /// No effects.
    pub fn nothing(alloc: Global) -> Outcome
        ensures { IsQuiet result }
    {
        Outcome {
            answer: None,
            proposal: None,
            hashed: Seq::new(alloc),
        }
    }

    /// Only this answer.
    pub fn of(alloc: Global, answer: Draft) -> Outcome
        ensures { IsAnswer answer result }
    {
        Outcome {
            answer: Some(answer),
            proposal: None,
            hashed: Seq::new(alloc),
        }
    }
}

/// The effect of an input: the outcome of its rule, the batch that is accepted, and what is delivered.
#[derive(Drop)]
pub struct Taken {
    pub outcome: Outcome,
    pub accepted: Option<(Slot, Batch)>,
    pub delivers: Seq<(Slot, Value)>,
}

impl Taken {
    /// An outcome, with nothing accepted or delivered.
    pub fn of(alloc: Global, outcome: Outcome) -> Taken
        ensures { IsAlone outcome result }
    {
        Taken {
            outcome,
            accepted: None,
            delivers: Seq::new(alloc),
        }
    }

    /// The effects: the answer, then the proposal, each signed with the next leaf; and the rest. The only error is out
    /// of memory.
    pub fn sign(
        self,
        context: &Context<HotStuff>,
        keys: &mut Keys,
    ) -> Result<Effects<Message>, NoMemory>
        requires { 2 ≤ left_of keys.old }
        ensures { IfOk result (λ e. IsSigned context.now.p.now self keys.old keys.new e) }
    {
        let mut sends = Seq::new(context.alloc);
        let outcome = self.outcome;
        send(context.p, outcome.answer, keys, &mut sends)?;
        send(context.p, outcome.proposal, keys, &mut sends)?;
        Ok(Effects {
            sends,
            accepted: self.accepted,
            delivers: self.delivers,
            hashed: outcome.hashed,
        })
    }
}
