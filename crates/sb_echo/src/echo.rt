//! The rules of echo, which is an ordering module (`Sequenced`).
ghost use Rattle.std.specs.Prelude.{◌≡◌, ℕ, ◌≤◌, List, IfOk};
ghost use Rattle.iss_keys.specs.KeyStates.{KeyState, left_of};
ghost use Rattle.iss_sb.specs.Calls.{IsGoodInput, IsGoodParams, IsTrueStep, has_slot};
ghost use Rattle.sb_echo.specs.Echo.{echo};
ghost use Rattle.sb_echo.specs.Internal.Refines.{HasCompleted, HasTaken, Refines, is_complete, is_free, is_heard, may_cast, may_take, one_at};

use crate::echoes::Echoes;
use crate::signing::{ECHO, SAY, digest_of, sign_word, string_of};
use crate::wire;
use crate::word::Word;
use iss_keys::Keys;
use iss_request::{
    Batch, DecodeError, Fields, Kind, NoMemory, NodeId, Seq, Slot, Value, Writer, nodes_of_kind,
    quorum,
};
use iss_sb::{Claim, Effects, Input, Params, Sequenced, To, asks_if};
use sb_context::{Context, Modelled};
use std::alloc::Global;
use std::collections::BTreeMap;

/// The state of a slot where a batch was accepted: the value waits for echoes of its digest, or was delivered.
#[derive(Drop)]
pub enum Place {
    Waiting { digest: [u8; 32], value: Value },
    Delivered,
}

/// A node's state in one instance: the slots where it accepted a batch, and the echoes that it received.
#[derive(Drop)]
pub struct Echo {
    me: NodeId,
    places: BTreeMap<u64, Place>,
    heard: Echoes,
}

// Whether the slot is one of the segment.
fn is_inside(p: &Params, slot: Slot) -> bool
    ensures { result ≡ has_slot slot.0 p.now.slots }
{
    p.slots.as_slice().contains(&slot)
}

// The delivery of a value at a slot, if there is one.
fn one_at(alloc: Global, slot: Slot, value: Option<Value>) -> Result<Seq<(Slot, Value)>, NoMemory>
    ensures { IfOk result (λ all. all ≡ one_at slot value) }
{
    let mut all = Seq::new(alloc);
    let Some(value) = value else {
        return Ok(all);
    };
    all.push((slot, value))?;
    Ok(all)
}

impl Echo {
    // Whether a batch may be accepted at the slot: it is in the segment, and none was accepted there.
    fn is_free(&self, p: &Params, slot: Slot) -> bool
        ensures { result ≡ is_free self.now p.now slot.0 }
    {
        is_inside(p, slot) && !self.places.contains_key(&slot.0)
    }

    // Whether a batch may be cast at the slot: this node is the leader, and the slot is free.
    fn may_cast(&self, p: &Params, slot: Slot) -> bool
        ensures { result ≡ may_cast self.now p.now slot }
    {
        self.me == p.leader && self.is_free(p, slot)
    }

    // Whether a batch is accepted from this node: it is the leader, and the slot is free.
    fn may_take(&self, p: &Params, from: NodeId, slot: Slot) -> bool
        ensures { result ≡ may_take self.now p.now from slot }
    {
        from == p.leader && self.is_free(p, slot)
    }

    // Whether a quorum echoed the digest at the slot.
    fn is_heard(&self, context: &Context<Echo>, slot: Slot, digest: &[u8; 32]) -> bool
        ensures { result ≡ is_heard self.now context.now.p.now slot.0 digest.now }
    {
        self.heard.count(slot, digest, context.nodes()) >= context.p.setup.quorum
    }

    // Whether the value that waits at the slot has a quorum of echoes.
    fn is_complete(&self, context: &Context<Echo>, slot: Slot) -> bool
        ensures { result ≡ is_complete self.now context.now.p.now slot.0 }
    {
        match self.places.get(&slot.0) {
            Some(Place::Waiting { digest, .. }) => self.is_heard(context, slot, digest),
            _ => false,
        }
    }

    // Accepts a batch at a free slot, and delivers it if a quorum of echoes came first. Returns the digest of the
    // batch.
    fn take(
        &mut self,
        context: &Context<Echo>,
        slot: Slot,
        batch: Batch,
    ) -> Result<([u8; 32], Effects<Word>), NoMemory>
        ensures { IfOk result (λ r. HasTaken context.now.p.now self.old self.new slot batch r.0 r.1) }
    {
        let mut effects = Effects::nothing(context.alloc);
        let string = string_of(context.alloc, context.p, &batch)?;
        let digest = digest_of(context.p, &batch, &string);
        effects.hashed.push(string)?;
        effects.accepted = Some((slot, batch.copy()?));
        let value = Value::Batch(batch);
        if self.is_heard(context, slot, &digest) {
            self.places.insert(slot.0, Place::Delivered)?;
            effects.delivers.push((slot, value))?;
            return Ok((digest, effects));
        }
        self.places
            .insert(slot.0, Place::Waiting { digest, value })?;
        Ok((digest, effects))
    }

    // If a quorum echoed the value that waits at the slot, marks the slot as delivered and returns the value.
    fn complete(&mut self, context: &Context<Echo>, slot: Slot) -> Result<Option<Value>, NoMemory>
        ensures { IfOk result (λ v. HasCompleted context.now.p.now self.old self.new slot v) }
    {
        if !self.is_complete(context, slot) {
            return Ok(None);
        }
        match self.places.insert(slot.0, Place::Delivered)? {
            Some(Place::Waiting { value, .. }) => Ok(Some(value)),
            _ => Ok(None),
        }
    }

    // The leader accepts a batch that is cast to it, sends it to all, and echoes it.
    // rule: Modules: A correct leader accepts one batch at a slot
    fn cast(
        &mut self,
        context: &Context<Echo>,
        slot: Slot,
        batch: Batch,
        keys: &mut Keys,
    ) -> Result<Effects<Word>, NoMemory>
        requires { 2 ≤ left_of keys.old }
        ensures { IfOk result (λ e. IsTrueStep echo Refines context.now.p.now self.old self.new
            (Input.Cast slot batch) keys.old keys.new e) }
    {
        if !self.may_cast(context.p, slot) {
            return Ok(Effects::nothing(context.alloc));
        }
        let said = batch.copy()?;
        let (digest, mut effects) = self.take(context, slot, batch)?;
        let sig = sign_word(context, SAY, slot, &digest, keys)?;
        let own = sign_word(context, ECHO, slot, &digest, keys)?;
        let word = Word::Say {
            slot,
            batch: said,
            sig,
        };
        effects.sends.push((To::All, word))?;
        let word = Word::Echo {
            slot,
            digest,
            sig: own,
        };
        effects.sends.push((To::All, word))?;
        Ok(effects)
    }

    // A node accepts the leader's first batch for a slot, and echoes its digest to all.
    // rule: Echo: A node takes the leader's first batch for a slot and echoes its digest once
    fn take_say(
        &mut self,
        context: &Context<Echo>,
        from: NodeId,
        slot: Slot,
        batch: Batch,
        keys: &mut Keys,
    ) -> Result<Effects<Word>, NoMemory>
        requires { 2 ≤ left_of keys.old }
        ensures { IfOk result (λ e. (sig : List ℕ) →
            IsTrueStep echo Refines context.now.p.now self.old self.new
            (Input.Receive from (Word.Say slot batch sig)) keys.old keys.new e) }
    {
        if !self.may_take(context.p, from, slot) {
            return Ok(Effects::nothing(context.alloc));
        }
        let (digest, mut effects) = self.take(context, slot, batch)?;
        let sig = sign_word(context, ECHO, slot, &digest, keys)?;
        let word = Word::Echo { slot, digest, sig };
        effects.sends.push((To::All, word))?;
        Ok(effects)
    }

    // A node receives an echo, and delivers the batch that it accepted at the slot once a quorum echoed it. It signs
    // nothing.
    // rule: Echo: A quorum of echoes decides the batch that was taken
    fn take_echo(
        &mut self,
        context: &Context<Echo>,
        from: NodeId,
        slot: Slot,
        digest: [u8; 32],
    ) -> Result<Effects<Word>, NoMemory>
        ensures { IfOk result (λ e. (sig : List ℕ) (keys : KeyState) → 2 ≤ left_of keys →
            IsTrueStep echo Refines context.now.p.now self.old self.new
            (Input.Receive from (Word.Echo slot digest sig)) keys keys e) }
    {
        if !is_inside(context.p, slot) {
            return Ok(Effects::nothing(context.alloc));
        }
        self.heard.hear(slot, digest, from)?;
        let value = self.complete(context, slot)?;
        let mut effects = Effects::nothing(context.alloc);
        effects.delivers = one_at(context.alloc, slot, value)?;
        Ok(effects)
    }
}

impl Modelled for Echo {
    type Msg = Word;

    ghost spec = { echo };
}

impl Sequenced for Echo {
    type Msg = Word;

    const TAG: u8 = 6;

    const STOPPING: bool = false;

    ghost use Rattle.std.specs.Prelude.{false};

    ghost TAG = { 6 };

    ghost STOPPING = { false };

    ghost spec = { echo };

    ghost refines = { Refines };

    fn nodes_of(f: u32) -> u32 {
        nodes_of_kind(Kind::Byzantine, f)
    }

    fn quorum_of(f: u32) -> u32 {
        quorum(Kind::Byzantine, f)
    }

    fn signs(_p: &Params) -> u32 {
        2
    }

    fn start(alloc: Global, _p: &Params, me: NodeId) -> Result<Echo, NoMemory> {
        Ok(Echo {
            me,
            places: BTreeMap::new(alloc),
            heard: Echoes::new(alloc),
        })
    }

    fn casts(&self, p: &Params, slot: Slot) -> bool {
        self.may_cast(p, slot)
    }

    fn asks<'a>(&'a self, p: &Params, i: &'a Input<Word>) -> Option<(Slot, &'a Batch)> {
        match i {
            Input::Cast { slot, batch } => asks_if(self.may_cast(p, *slot), *slot, batch),
            Input::Receive {
                from,
                msg: Word::Say { slot, batch, .. },
            } => {
                if self.may_take(p, *from, *slot) {
                    Some((*slot, batch))
                } else {
                    None
                }
            }
            _ => None,
        }
    }

    fn apply(
        &mut self,
        alloc: Global,
        p: &Params,
        i: Input<Word>,
        keys: &mut Keys,
    ) -> Result<Effects<Word>, NoMemory>
        requires good { IsGoodParams echo p.now }
        requires input { IsGoodInput p.now i }
        requires enough { echo.signs p.now ≤ left_of keys.old }
        ensures { IfOk result (λ e. IsTrueStep echo Refines p.now self.old self.new i keys.old keys.new e) }
    {
        let context = Context::of(alloc, p);
        match i {
            Input::Cast { slot, batch } => self.cast(&context, slot, batch, keys),
            Input::Receive { from, msg } => match msg {
                Word::Say { slot, batch, .. } => self.take_say(&context, from, slot, batch, keys),
                Word::Echo { slot, digest, .. } => self.take_echo(&context, from, slot, digest),
            },
            Input::Timeout => Ok(Effects::nothing(alloc)),
        }
    }

    fn encode(m: &Word, out: &mut Writer) -> Result<(), NoMemory> {
        wire::write(m, out)
    }

    fn decode(alloc: Global, f: &mut Fields) -> Result<Word, DecodeError> {
        wire::read(alloc, f)
    }

    fn claims(alloc: Global, p: &Params, from: NodeId, m: &Word) -> Result<Seq<Claim>, NoMemory> {
        wire::claims(alloc, p, from, m)
    }

    fn laws() {}
}
