//! The context of a module's step.
ghost use Rattle.std.specs.Prelude.{◌≡◌};
ghost use Rattle.std.proofs.Props.{props};
ghost use Rattle.iss_sb.specs.Calls.{IsGoodParams};
ghost use Rattle.iss_sb.specs.Evidence.{Module};
ghost use Rattle.sb_context.specs.Good.{good_parts};

use iss_sb::Params;
use std::alloc::Global;
use std::marker::PhantomData;

/// A module's model. `Sequenced` has it too, but its calls are made of functions that take a `Context`.
pub trait Modelled {
    type Msg;

    ghost spec: { Module Self.Msg };
}

/// What a step of module `M` is made with. It is built where the trait's call enters and handed down, so that no
/// private function has to require good parameters.
#[derive(Drop)]
pub struct Context<'a, M: Modelled> {
    pub alloc: Global,
    pub p: &'a Params,
    module: PhantomData<M>,
    ghost good: { IsGoodParams M.spec p.now } by { Prim.hlevel (good_parts, props) },
}

impl<'a, M: Modelled> Context<'a, M> {
    /// The context of a step with these parameters.
    pub fn of(alloc: Global, p: &'a Params) -> Context<'a, M>
        requires { IsGoodParams M.spec p.now }
        ensures { result.p.now ≡ p.now }
    {
        Context {
            alloc,
            p,
            module: PhantomData,
        }
    }

    /// The number of nodes.
    pub fn nodes(&self) -> u8
        ensures { result ≡ self.now.p.now.setup.n }
    {
        self.p.setup.n as u8
    }
}
