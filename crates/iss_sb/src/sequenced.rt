//! The trait of an ordering module. The layers above rely only on these contracts.
ghost use Rattle.std.specs.Prelude.{◌≡◌, ℕ, ◌<◌, ◌≤◌, ◌↔◌, if◌then◌else◌, List, [], Bool, IfOk, OnOk, IsTrue, Some, None};
ghost use Rattle.iss_request.specs.declared.requests.Batch.{Batch};
ghost use Rattle.iss_sb.specs.declared.effects.Params.{Params};
ghost use Rattle.iss_request.specs.Fields.{IsGrammar, IsRead, IsUnreadable, and_bytes};
ghost use Rattle.iss_keys.specs.KeyStates.{left_of};
ghost use Rattle.iss_sb.specs.Calls.{IsStep, IsTrueStep, IsGoodParams, IsGoodInput, named};
ghost use Rattle.iss_sb.specs.Evidence.{Item, Module};
ghost use Rattle.iss_sb.specs.Laws.{AcceptsOnce, DecidesReadable, IsLawful, IsSafe, SignsOnce};

use crate::effects::{Claim, Effects, Input, Params, StepError};
use iss_keys::Keys;
use iss_request::{Batch, DecodeError, Fields, NoMemory, NodeId, Seq, Slot, Writer};
use std::alloc::Global;

/// An ordering module: an implementation of Sequenced Broadcast. A value is one instance at one node. It orders the
/// slots of one leader's segment in one epoch.
pub trait Sequenced: Drop + Sized {
    type Msg: Drop;

    ghost TAG: { ℕ };

    ghost STOPPING: { Bool };

    /// The module's number in statements and packets.
    const TAG: u8;

    /// Whether faulty nodes only stop (crash-stop). Otherwise they may be Byzantine.
    const STOPPING: bool;

    /// The module's model: functions of a node's history, the list of inputs that it took.
    ghost spec: { Module Self.Msg };

    /// The instance refines this history of that node, under these parameters.
    ghost refines: { Self → Params → ℕ → List (Item Self.Msg) → Type 0 };

    /// The number of nodes that tolerates `f` faulty ones.
    fn nodes_of(f: u32) -> u32
        requires { f ≤ 3 }
        ensures { result ≡ spec.nodes f };

    /// The size of a quorum when `f` nodes may be faulty.
    fn quorum_of(f: u32) -> u32
        requires { f ≤ 3 }
        ensures { result ≡ spec.quorum f };

    /// The most signatures that one step makes, which is the most leaves that it uses.
    fn signs(p: &Params) -> u32
        requires { IsGoodParams spec p.now }
        ensures { result ≡ spec.signs p.now };

    /// A new instance at node `me`, which took no input. The only error is out of memory.
    fn start(alloc: Global, p: &Params, me: NodeId) -> Result<Self, NoMemory>
        requires good { IsGoodParams spec p.now }
        requires me { me.0 < p.now.setup.n }
        ensures { IfOk result (λ m. refines m p.now me.0 []) };

    /// Whether a batch proposed at this slot would be accepted now, whatever the batch.
    fn casts(&self, p: &Params, slot: Slot) -> bool
        requires good { IsGoodParams spec p.now }
        ensures { (me : ℕ) (xs : List (Item Self.Msg)) (batch : Batch) → refines self.now p.now me xs →
            (IsTrue result ↔ (spec.asks p.now me xs (Input.Cast slot batch) ≡ Some (slot, batch))) };

    /// The batch that a step with this input would accept, with its slot. The host judges it first, and passes its
    /// verdict to `step`.
    fn asks<'a>(&'a self, p: &Params, i: &'a Input<Self::Msg>) -> Option<(Slot, &'a Batch)>
        requires good { IsGoodParams spec p.now }
        requires input { IsGoodInput p.now i.now }
        ensures { (me : ℕ) (xs : List (Item Self.Msg)) → refines self.now p.now me xs →
            named result ≡ spec.asks p.now me xs i.now };

    /// Takes an input whose batch the host has accepted. At least `signs` leaves must be left. The only error is out of
    /// memory, and then nothing is promised of the instance.
    fn apply(
        &mut self,
        alloc: Global,
        p: &Params,
        i: Input<Self::Msg>,
        keys: &mut Keys,
    ) -> Result<Effects<Self::Msg>, NoMemory>
        requires good { IsGoodParams spec p.now }
        requires input { IsGoodInput p.now i }
        requires enough { spec.signs p.now ≤ left_of keys.old }
        ensures { IfOk result (λ e. IsTrueStep spec refines p.now self.old self.new i keys.old keys.new e) };

    /// Takes an input. If `verdict` is false, nothing changes. `Spent` is returned exactly if fewer than `signs` leaves
    /// are left, and then nothing changes. After `NoMemory` nothing is promised of the instance.
    // rule: Modules: Correct nodes deliver equal values, each accepted by them and cast by a correct leader
    // rule: Modules: A step whose batch is refused changes nothing
    final fn step(
        &mut self,
        alloc: Global,
        p: &Params,
        i: Input<Self::Msg>,
        verdict: bool,
        keys: &mut Keys,
    ) -> Result<Effects<Self::Msg>, StepError>
        requires good { IsGoodParams spec p.now }
        requires input { IsGoodInput p.now i }
        ensures { IsStep spec refines p.now self.old self.new i verdict keys.old keys.new result }
    {
        if keys.left() < Self::signs(p) {
            return Err(StepError::Spent);
        }
        if !verdict {
            return Ok(Effects::nothing(alloc));
        }
        Ok(self.apply(alloc, p, i, keys)?)
    }

    /// Appends the encoding of a message in the writer's version: its number, its fields, its signature. The only error
    /// is out of memory.
    // rule: Modules: Decoding gives back the message that was sent
    fn encode(m: &Self::Msg, out: &mut Writer) -> Result<(), NoMemory>
        ensures { OnOk result (out.new ≡ and_bytes out.old (spec.spell out.old.version m.now)) };

    /// Decodes the message at the start of the input, in the reader's version. `BadField` gives the offset of the first
    /// field that does not fit.
    fn decode(alloc: Global, f: &mut Fields) -> Result<Self::Msg, DecodeError>
        ensures ok { IfOk result (λ m. IsRead (spec.parse f.old.version) f.old f.new m) }
        ensures bad { (at : ℕ) → result ≡ Err (DecodeError.BadField at) →
            IsUnreadable (spec.parse f.old.version) f.old at };

    /// Which nodes the message says have signed which statements, in the order of its bytes. The only error is out of
    /// memory.
    // rule: Modules: A message that arrives was sent, or verifies and its correct signers signed it
    fn claims(
        alloc: Global,
        p: &Params,
        from: NodeId,
        m: &Self::Msg,
    ) -> Result<Seq<Claim>, NoMemory>
        requires good { IsGoodParams spec p.now }
        requires from { from.0 < p.now.setup.n }
        ensures { IfOk result (λ claims. claims ≡ spec.claims p.now from.0 m.now) };

    /// The laws that the module proves; the body is empty. `grammar`: in each version a message has at most one
    /// encoding, and none is a prefix of another. `lawful`: the laws of single steps. `safe`: agreement, no duplication
    /// and integrity. `accepts_once`: a correct leader accepts one batch at a slot. `decides_readable`: values that are
    /// decided have encodings. `signs_once`: no leaf signs two statements.
    fn laws()
        ensures tagged { spec.tag ≡ TAG }
        ensures stopping { spec.stopping ≡ STOPPING }
        ensures grammar { (version : ℕ) → IsGrammar (spec.spell version) (spec.parse version) }
        ensures lawful { IsLawful spec }
        ensures safe { IsSafe spec }
        ensures accepts_once { AcceptsOnce spec }
        ensures decides_readable { DecidesReadable spec }
        ensures signs_once { SignsOnce spec };
}

/// What `asks` returns for a proposal: its batch, if it would be accepted.
pub fn asks_if(casts: bool, slot: Slot, batch: &Batch) -> Option<(Slot, &Batch)>
    ensures { named result ≡ (if casts then Some (slot, batch.now) else None) }
{
    if casts { Some((slot, batch)) } else { None }
}
