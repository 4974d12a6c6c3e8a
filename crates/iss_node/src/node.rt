//! A node: its state, and whether it is stale.
ghost use Rattle.std.specs.Prelude.{◌≡◌, ◌<◌, ◌≤◌, ◌↔◌, ℕ, [], false, true, None, IfOk, OnOk, is_some, length, map, not, option_map, reverse};
ghost use Rattle.std.specs.List.{list_any};
ghost use Rattle.iss_ballots.specs.Ballots.{cert_at};
ghost use Rattle.iss_keys.specs.Directories.{AreKeysOf};
ghost use Rattle.iss_log.specs.LogState.{value_at};
ghost use Rattle.iss_rules.specs.Concrete.{rules_of};
ghost use Rattle.iss_rules.specs.Votes.{cert_on};
ghost use Rattle.iss_model.specs.Node.{Core, initial_core, step};
ghost use Rattle.iss_rules.specs.Past.{Past, log_of};
ghost use Rattle.iss_model.specs.Views.{accepted_by, is_castable_now, is_unfilled, unfilled};
ghost use Rattle.iss_model.specs.Frames.{claims_of_bytes_in, frame_of, step_in};
ghost use Rattle.iss_node.specs.Internal.Ready.{RefinesSome};
ghost use Rattle.iss_node.specs.State.{IsMember, RefinesCore, RefinesPast, StateRefinesCore, accepted_of};
ghost use Rattle.iss_request.specs.Log.{ids};
ghost use Rattle.iss_node.specs.Internal.Storing.{HasNoted, is_entry, storable};
ghost use Rattle.iss_node.specs.Steps.{HasRetreated, IsAnswer, IsEnteredAnswer, IsHeldStepOf, IsKeptStepOf, IsLeft, IsOfNodes, IsReplayed, IsSameLog, IsSameNode};

use crate::answers::{Accepted, Answer, Outcome, StepResult};
use crate::flight::Flight;
use crate::saved::Saved;
use crate::starting::start_segments;
use crate::state::NodeState;
use iss_ballots::Ballots;
use iss_buckets::Pending;
use iss_checkpoint::Cert;
use iss_keys::{Keys, SharedDirectory};
use iss_layout::laws::epochs_are_fair;
use iss_layout::{Layout, Standing};
use iss_log::{Chains, Log};
use iss_request::{Batch, Bytes, Epoch, NoMemory, NodeId, ReqId, Seq, Setup, Slot};
use iss_rules::NodeEvent;
use iss_sb::{Claim, Input, Sequenced};
use iss_segment::Segment;
use iss_snapshot::snapshots::KIND;
use iss_window::{Ids, Windows};
use std::alloc::Global;
use std::marker::Model;

/// The length of the longest entry of a journal.
const MAX_ENTRY: usize = 200_000_100;

/// One replica. It becomes stale when memory runs out, or after `retreat`: then it only reports a log and an epoch, and
/// takes no further event.
#[derive(Drop)]
pub struct Node<M: Sequenced> {
    pub(crate) state: NodeState<M>,
    stale: bool,
}

impl<M: Sequenced> Model for Node<M> {
    ghost use Rattle.iss_node.specs.Internal.Shape.{IsNode};
    ghost use Rattle.iss_node.specs.State.{NodeView};

    ghost Value = { NodeView M M.Msg };

    ghost view = { λ v. record { state = v.state; stale = v.stale } };

    ghost invariant = { λ v. IsNode M.spec M.refines (record { state = v.state; stale = v.stale }) };
}

impl<M: Sequenced> Node<M> {
    /// A node that has taken no event, with its own keys, in a cluster with this directory. The only error is out of
    /// memory.
    pub fn start(
        alloc: Global,
        setup: &Setup,
        directory: &SharedDirectory,
        me: NodeId,
        keys: Keys,
    ) -> Result<Node<M>, NoMemory>
        requires member { IsMember M.spec setup.now directory.now me.0 }
        requires own { AreKeysOf me.0 setup.now.keys keys }
        ensures refines { IfOk result (λ v. RefinesCore M.spec M.refines v (record initial_core { leaf = keys.used })) }
        ensures same { IfOk result (λ v. (v.state.setup ≡ setup.now) × (v.state.me ≡ me)) }
        ensures saved { IfOk result (λ v. v.state.saved ≡ record { from = 0; low = 0; strays = [] }) }
    {
        epochs_are_fair();
        let standing = Standing::new();
        let layout = Layout::of(setup, Epoch(0), 0, &standing);
        let own_setup = setup.copy()?;
        let windows = Windows::new(alloc, setup)?;
        let chains = Chains::new(alloc, setup.version)?;
        let ballots = Ballots::new(alloc, setup, directory)?;
        let segments = start_segments::<M>(alloc, setup, directory, Epoch(0), &layout, me)?;
        let state = NodeState {
            setup: own_setup,
            me,
            directory: directory.share(),
            epoch: Epoch(0),
            layout,
            windows,
            standing,
            segments,
            accepted: Vec::new(alloc),
            log: Log::new(alloc),
            chains,
            waiting: Pending::new(alloc),
            flight: Flight::new(alloc),
            early: Vec::new(alloc),
            logged: Ids::new(alloc),
            ballots,
            saved: Saved::nothing(alloc),
            keys,
        };
        Ok(Node {
            state,
            stale: false,
        })
    }

    // The node with this state.
    pub(crate) fn of(state: NodeState<M>) -> Node<M>
        requires { (c : Core M.Msg) × StateRefinesCore M.spec M.refines state c }
        ensures { result ≡ record { state = state; stale = false } }
    {
        Node {
            state,
            stale: false,
        }
    }

    // Its state.
    pub(crate) fn into_state(self) -> NodeState<M>
        ensures { result ≡ self.state }
    {
        self.state
    }

    /// Takes an event. A dropped event changes nothing. After `NoMemory` the node is stale, and reports the log and
    /// epoch from before the event. Answers `Stale` if and only if the node is stale.
    // rule: Signatures: A node signs at most one statement with each leaf
    pub fn take(&mut self, alloc: Global, event: NodeEvent) -> Answer
        ensures answer { (c : Core M.Msg) → RefinesCore M.spec M.refines self.old c →
            IsAnswer M.spec M.refines (IsOfNodes self.old.state.setup.n event) c
            (step_in (frame_of self.old.state.setup M.spec) self.old.state.me.0 c event) self.new result }
        ensures refused { (result ≡ Answer.Stale) ↔ (self.old.stale ≡ true) }
        ensures left { IsLeft self.old self.new result }
        ensures same { (self.new.state.setup ≡ self.old.state.setup) × (self.new.state.me ≡ self.old.state.me) }
        ensures entered { (c : Core M.Msg) → RefinesCore M.spec M.refines self.old c →
            IsEnteredAnswer M.spec self.old.state
            (step_in (frame_of self.old.state.setup M.spec) self.old.state.me.0 c event) self.new.state result }
    {
        if self.stale {
            return Answer::Stale;
        }
        let held = self.state.log.entries().len();
        let epoch = self.state.epoch;
        // An event that runs out of memory midway leaves the node stale.
        self.stale = true;
        match self.state.kept_turn(alloc, event) {
            Ok(Ok(outcome)) => {
                self.stale = false;
                Answer::Taken(outcome)
            }
            Ok(Err(why)) => {
                self.stale = false;
                Answer::Dropped(why)
            }
            Err(_) => {
                self.state.log.cut(held);
                self.state.epoch = epoch;
                Answer::NoMemory
            }
        }
    }

    /// Takes an event of a journal, as `take` does. It stands there already, so no snapshot takes its place, and none
    /// is noted.
    // rule: Persistence: No snapshot takes the place of an event that is replayed
    pub fn replay(&mut self, alloc: Global, event: NodeEvent) -> Answer
        ensures answer { (c : Core M.Msg) → RefinesCore M.spec M.refines self.old c →
            IsAnswer M.spec M.refines (IsOfNodes self.old.state.setup.n event) c
            (step_in (frame_of self.old.state.setup M.spec) self.old.state.me.0 c event) self.new result }
        ensures refused { (result ≡ Answer.Stale) ↔ (self.old.stale ≡ true) }
        ensures left { IsLeft self.old self.new result }
        ensures same { (self.new.state.setup ≡ self.old.state.setup) × (self.new.state.me ≡ self.old.state.me) }
        ensures saved { self.new.state.saved ≡ self.old.state.saved }
        ensures entered { IsReplayed result }
    {
        if self.stale {
            return Answer::Stale;
        }
        let held = self.state.log.entries().len();
        let epoch = self.state.epoch;
        self.stale = true;
        match self.state.turn(alloc, event) {
            Ok(Ok(outcome)) => {
                self.stale = false;
                Answer::Taken(replayed(outcome))
            }
            Ok(Err(why)) => {
                self.stale = false;
                Answer::Dropped(why)
            }
            Err(_) => {
                self.state.log.cut(held);
                self.state.epoch = epoch;
                Answer::NoMemory
            }
        }
    }

    /// The signatures claimed by a packet: a vote, a piece with its certificate, or a message of the current epoch for
    /// a leader of that epoch.
    pub fn claims_of(&self, alloc: Global, bytes: &Bytes) -> Result<Seq<Claim>, NoMemory>
        ensures { IfOk result (λ claims. (c : Core M.Msg) → RefinesCore M.spec M.refines self.now c →
            claims ≡ claims_of_bytes_in (frame_of self.now.state.setup M.spec) self.now.state.me.0 c bytes.now) }
    {
        self.state.claims_of_bytes(alloc, bytes)
    }

    /// The certificate of an epoch, if the node has it.
    pub fn cert_at(&self, epoch: Epoch) -> Option<&Cert>
        ensures shown { option_map (λ c. c.now) result ≡ cert_at self.now.state.ballots.certs epoch.0 }
        ensures is { (c : Core M.Msg) → RefinesCore M.spec M.refines self.now c →
            option_map (λ c. c.now) result ≡ cert_on c.certs epoch.0 }
    {
        self.state.ballots.cert_at(epoch)
    }

    /// Truncates the log to its first `slots` slots and sets the epoch back. The node is stale from then on.
    // rule: Persistence: A node that retreats keeps the given prefix of its log and takes nothing more
    pub fn retreat(&mut self, slots: usize, epoch: Epoch)
        requires slots { slots ≤ length self.old.state.log.entries }
        requires epoch { epoch.0 ≤ self.old.state.epoch }
        ensures { HasRetreated self.old self.new slots epoch.0 }
    {
        self.stale = true;
        self.state.log.cut(slots);
        self.state.epoch = epoch;
    }

    /// Whether the node ran out of memory or has retreated.
    pub fn is_stale(&self) -> bool
        ensures { result ≡ self.now.stale }
    {
        self.stale
    }

    /// The log.
    pub fn log(&self) -> &Log
        ensures shown { result.now ≡ self.now.state.log }
        ensures is { (c : Core M.Msg) → RefinesCore M.spec M.refines self.now c →
            log_of (rules_of self.now.state.setup) M.spec self.now.state.me.0 c.past ≡ reverse result.now.entries }
    {
        &self.state.log
    }

    /// The node's epoch.
    pub fn epoch(&self) -> Epoch
        ensures shown { result.0 ≡ self.now.state.epoch }
        ensures is { (c : Core M.Msg) → RefinesCore M.spec M.refines self.now c → result.0 ≡ c.past.epoch }
    {
        self.state.epoch
    }

    /// The batches that the instances of the current epoch accepted, oldest first.
    pub fn accepted(&self) -> &[Accepted]
        ensures { (c : Core M.Msg) (l : ℕ) → RefinesCore M.spec M.refines self.now c →
            reverse (accepted_of l result.now) ≡ accepted_by c l }
    {
        self.state.accepted.as_slice()
    }

    /// The identities of waiting requests in order of arrival, and the batches in flight.
    pub fn unordered(&self, alloc: Global) -> Result<(Seq<ReqId>, &[(Slot, Batch)]), NoMemory>
        ensures { IfOk result (λ both. (c : Core M.Msg) → RefinesCore M.spec M.refines self.now c →
            (both.0 ≡ ids c.waiting) × (both.1.now ≡ c.flight)) }
    {
        let waiting = self.state.waiting.waiting(alloc)?;
        Ok((waiting, self.state.flight.casts()))
    }

    /// Whether a proposal would find a free slot.
    pub fn castable(&self) -> bool
        ensures { (c : Core M.Msg) → RefinesCore M.spec M.refines self.now c →
            result ≡ is_castable_now (rules_of self.now.state.setup) M.spec self.now.state.me.0 c }
    {
        self.state.castable()
    }

    /// The leaders whose segments are not yet filled, ascending.
    pub fn unfilled(&self, alloc: Global) -> Result<Seq<NodeId>, NoMemory>
        ensures { IfOk result (λ leaders. (c : Core M.Msg) → RefinesCore M.spec M.refines self.now c →
            map (λ l. l.0) leaders ≡ unfilled
            (rules_of self.now.state.setup) M.spec self.now.state.setup.n self.now.state.me.0 c.past) }
    {
        let mut leaders = Seq::new(alloc);
        for node in 0..self.state.setup.n {
            if self.state.is_unfilled(NodeId(node as u8)) {
                leaders.push(NodeId(node as u8))?;
            }
        }
        Ok(leaders)
    }
}

impl<M: Sequenced> NodeState<M> {
    // Takes an event, and notes the snapshot that takes its place, unless that is too long.
    // rule: Persistence: A snapshot takes the place of the event that ended an epoch, unless it is too long
    fn kept_turn(&mut self, alloc: Global, event: NodeEvent) -> Result<StepResult, NoMemory>
        requires { RefinesSome M.spec M.refines self.old }
        ensures answer { IfOk result (λ a. IsKeptStepOf M.spec M.refines (IsOfNodes self.old.setup.n event) self.old
            (λ F R me c. step F R M.spec me c event) self.new a) }
        ensures same { IsSameLog self.old self.new }
    {
        match self.turn(alloc, event)? {
            Ok(outcome) => Ok(Ok(self.keep_entered(alloc, outcome)?)),
            Err(why) => Ok(Err(why)),
        }
    }

    // The outcome without a snapshot that is too long. Another one is noted.
    fn keep_entered(&mut self, alloc: Global, outcome: Outcome) -> Result<Outcome, NoMemory>
        ensures kept { IfOk result (λ o. o ≡ record outcome { entered = storable outcome.entered }) }
        ensures noted { OnOk result (HasNoted self.old (storable outcome.entered) self.new) }
        ensures rest { self.new ≡ record self.old { saved = self.new.saved } }
    {
        let Outcome {
            sends,
            own,
            early,
            hashed,
            entered,
        } = outcome;
        let entered = storable(entered);
        self.note_entered(alloc, &entered)?;
        Ok(Outcome {
            sends,
            own,
            early,
            hashed,
            entered,
        })
    }

    // Notes a snapshot, if there is one.
    fn note_entered(&mut self, alloc: Global, entered: &Option<Bytes>) -> Result<(), NoMemory>
        ensures noted { OnOk result (HasNoted self.old entered.now self.new) }
        ensures rest { self.new ≡ record self.old { saved = self.new.saved } }
    {
        match entered {
            Some(_) => self.note_saved(alloc),
            None => Ok(()),
        }
    }

    // Takes an event. The only error is out of memory; the state may be half updated then.
    fn turn(&mut self, alloc: Global, event: NodeEvent) -> Result<StepResult, NoMemory>
        requires { RefinesSome M.spec M.refines self.old }
        ensures answer { IfOk result (λ a. IsHeldStepOf M.spec M.refines (IsOfNodes self.old.setup.n event) self.old
            (λ F R me c. step F R M.spec me c event) self.new a) }
        ensures same { IsSameNode self.old self.new }
    {
        match event {
            NodeEvent::Packet(bytes) => self.take_bytes(alloc, &bytes),
            NodeEvent::Propose => self.propose(alloc),
            NodeEvent::Timeout(leader) => {
                let step = self.try_step(alloc, leader, Input::Timeout, &[])?;
                self.finish_step(alloc, step)
            }
            NodeEvent::AskFrom(peer) => self.ask_from(alloc, peer),
        }
    }

    // Whether `leader` leads the epoch and has slots without a value.
    fn is_unfilled(&self, leader: NodeId) -> bool
        ensures { (past : Past M.Msg) → RefinesPast M.spec M.refines self.now past →
            result ≡ is_unfilled (rules_of self.now.setup) M.spec self.now.me.0 past leader.0 }
    {
        match self.segment(leader) {
            Some(segment) => is_any_empty(&self.log, segment.params().slots.as_slice()),
            None => false,
        }
    }
}

// The outcome of an event that stands in the journal.
fn replayed(outcome: Outcome) -> Outcome
    ensures { result ≡ record outcome { entered = None } }
{
    let Outcome {
        sends,
        own,
        early,
        hashed,
        ..
    } = outcome;
    Outcome {
        sends,
        own,
        early,
        hashed,
        entered: None,
    }
}

// The snapshot, if an entry of a journal can hold it.
fn storable(entered: Option<Bytes>) -> Option<Bytes>
    ensures { result ≡ storable entered }
{
    let bytes = entered?;
    if is_storable(&bytes) {
        Some(bytes)
    } else {
        None
    }
}

// Whether these bytes are a snapshot that an entry of a journal can hold.
fn is_storable(bytes: &Bytes) -> bool
    ensures { result ≡ is_entry bytes.now }
{
    bytes.len() <= MAX_ENTRY && bytes.as_slice().first() == Some(&KIND)
}

// Whether one of these slots has no value.
fn is_any_empty(log: &Log, slots: &[Slot]) -> bool
    ensures { result ≡ list_any (λ s. not (is_some (value_at log.now s.0))) slots.now }
{
    slots.iter().any(|slot| !log.filled(*slot))
}
