//! The two rules of the relay, which is an ordering module (`Sequenced`).
ghost use Rattle.std.specs.Prelude.{◌≡◌, ◌≤◌, ℕ, List, IfOk, OnOk};
ghost use Rattle.iss_keys.specs.KeyStates.{left_of};
ghost use Rattle.iss_sb.specs.Calls.{IsGoodInput, IsGoodParams, IsTaken, IsTrueStep};
ghost use Rattle.iss_sb.specs.Evidence.{Item, and_then};
ghost use Rattle.sb_relay.specs.declared.say.Say.{Say};
ghost use Rattle.sb_relay.specs.Relay.{relay};
ghost use Rattle.sb_relay.specs.Internal.Refines.{IsOfSegment, Refines, may_cast, may_deliver};

use crate::say::Say;
use iss_keys::Keys;
use iss_request::{Batch, DecodeError, Fields, NoMemory, NodeId, Seq, Slot, Value, Writer};
use iss_sb::{Claim, Effects, Input, Params, Sequenced, To, asks_if};
use std::alloc::Global;

/// A node's state in one instance: the slots of the segment that it cast at, and those that it delivered.
#[derive(Drop, Debug)]
pub struct Relay {
    me: NodeId,
    cast: Seq<Slot>,
    delivered: Seq<Slot>,
}

impl Relay {
    /// Whether a batch may be cast at the slot: this node is the leader, and has cast nothing at this slot of its
    /// segment.
    fn may_cast(&self, p: &Params, slot: Slot) -> bool
        ensures { result ≡ may_cast self.now p.now slot }
    {
        self.me == p.leader
            && p.slots.as_slice().contains(&slot)
            && !self.cast.as_slice().contains(&slot)
    }

    /// Whether a message is delivered: it is the leader's, and the first for this slot of the segment.
    fn may_deliver(&self, p: &Params, from: NodeId, slot: Slot) -> bool
        ensures { result ≡ may_deliver self.now p.now from slot }
    {
        from == p.leader
            && p.slots.as_slice().contains(&slot)
            && !self.delivered.as_slice().contains(&slot)
    }

    /// Sends the batch to all, if it may be cast.
    // rule: Relay: The leader sends one batch a slot
    // rule: Modules: A correct leader accepts one batch at a slot
    fn cast(
        &mut self,
        alloc: Global,
        p: &Params,
        slot: Slot,
        batch: Batch,
    ) -> Result<Effects<Say>, NoMemory>
        ensures refines { OnOk result ((me : ℕ) (xs : List (Item Say)) (leaf : ℕ) → Refines self.old p.now me xs →
            Refines self.new p.now me (and_then relay p.now me xs (Input.Cast slot batch) leaf)) }
        ensures effects { IfOk result (λ e. (me : ℕ) (xs : List (Item Say)) (leaf : ℕ) → Refines self.old p.now me xs →
            IsTaken relay p.now me xs (Input.Cast slot batch) leaf e) }
        ensures within { IfOk result (λ e. IsOfSegment p.now e) }
    {
        if !self.may_cast(p, slot) {
            return Ok(Effects::nothing(alloc));
        }
        let mut effects = Effects::nothing(alloc);
        let said = Say {
            slot,
            batch: batch.copy()?,
        };
        self.cast.push(slot)?;
        effects.sends.push((To::All, said))?;
        effects.accepted = Some((slot, batch));
        Ok(effects)
    }

    /// Delivers the batch in a message, if it is to be delivered.
    // rule: Relay: The leader's first batch for a slot is delivered, once
    // rule: Modules: A step delivers exactly what the module's definition delivers
    fn hear(
        &mut self,
        alloc: Global,
        p: &Params,
        from: NodeId,
        said: Say,
    ) -> Result<Effects<Say>, NoMemory>
        ensures refines { OnOk result ((me : ℕ) (xs : List (Item Say)) (leaf : ℕ) → Refines self.old p.now me xs →
            Refines self.new p.now me (and_then relay p.now me xs (Input.Receive from said) leaf)) }
        ensures effects { IfOk result (λ e. (me : ℕ) (xs : List (Item Say)) (leaf : ℕ) → Refines self.old p.now me xs →
            IsTaken relay p.now me xs (Input.Receive from said) leaf e) }
        ensures within { IfOk result (λ e. IsOfSegment p.now e) }
    {
        if !self.may_deliver(p, from, said.slot) {
            return Ok(Effects::nothing(alloc));
        }
        let mut effects = Effects::nothing(alloc);
        let Say { slot, batch } = said;
        self.delivered.push(slot)?;
        effects.delivers.push((slot, Value::Batch(batch)))?;
        Ok(effects)
    }
}

impl Sequenced for Relay {
    type Msg = Say;

    const TAG: u8 = 1;

    const STOPPING: bool = true;

    ghost use Rattle.std.specs.Prelude.{true};

    ghost TAG = { 1 };

    ghost STOPPING = { true };

    ghost spec = { relay };

    ghost refines = { Refines };

    fn nodes_of(_f: u32) -> u32 {
        3
    }

    fn quorum_of(_f: u32) -> u32 {
        2
    }

    fn signs(_p: &Params) -> u32 {
        0
    }

    fn start(alloc: Global, _p: &Params, me: NodeId) -> Result<Relay, NoMemory> {
        Ok(Relay {
            me,
            cast: Seq::new(alloc),
            delivered: Seq::new(alloc),
        })
    }

    fn casts(&self, p: &Params, slot: Slot) -> bool {
        self.may_cast(p, slot)
    }

    fn asks<'a>(&'a self, p: &Params, i: &'a Input<Say>) -> Option<(Slot, &'a Batch)> {
        match i {
            Input::Cast { slot, batch } => asks_if(self.may_cast(p, *slot), *slot, batch),
            _ => None,
        }
    }

    fn apply(
        &mut self,
        alloc: Global,
        p: &Params,
        i: Input<Say>,
        _keys: &mut Keys,
    ) -> Result<Effects<Say>, NoMemory>
        requires good { IsGoodParams relay p.now }
        requires input { IsGoodInput p.now i }
        requires enough { relay.signs p.now ≤ left_of _keys.old }
        ensures { IfOk result (λ e. IsTrueStep relay Refines p.now self.old self.new i _keys.old _keys.new e) }
    {
        match i {
            Input::Cast { slot, batch } => Ok(self.cast(alloc, p, slot, batch)?),
            Input::Receive { from, msg } => Ok(self.hear(alloc, p, from, msg)?),
            Input::Timeout => Ok(Effects::nothing(alloc)),
        }
    }

    fn encode(m: &Say, out: &mut Writer) -> Result<(), NoMemory> {
        m.write(out)
    }

    fn decode(alloc: Global, f: &mut Fields) -> Result<Say, DecodeError> {
        Say::read(alloc, f)
    }

    fn claims(alloc: Global, _p: &Params, _from: NodeId, _m: &Say) -> Result<Seq<Claim>, NoMemory> {
        Ok(Seq::new(alloc))
    }

    fn laws() {}
}
