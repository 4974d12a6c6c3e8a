//! The state of a node that continues with a snapshot of its journal.
ghost use Rattle.std.specs.Prelude.{◌≡◌, ◌<◌, ◌≤◌, ◌^◌, ◌++◌, ◌&&◌, ℕ, List, Some, nat_le, not, length, option_map, reverse, IfOk, IfSome, OnOk};
ghost use Rattle.iss_ballots.specs.Ballots.{AreKept};
ghost use Rattle.iss_checkpoint.specs.declared.votes.Cert.{Cert as Certificate};
ghost use Rattle.iss_checkpoint.specs.declared.votes.Vote.{Vote as Voted};
ghost use Rattle.iss_model.specs.Frames.{frame_of};
ghost use Rattle.iss_model.specs.Node.{Core};
ghost use Rattle.iss_node.specs.Internal.Rebuilding.{AreTaken, AreWhole, HasBegun, IsEmptied, IsReadAs, IsSamePlace, IsWhole, after, continues, kept_early, was_taken};
ghost use Rattle.iss_node.specs.Internal.Parcels.{IsFromNode, seen_some};
ghost use Rattle.iss_node.specs.Internal.Shape.{AreFrom};
ghost use Rattle.iss_node.specs.Rebuilding.{HasRead};
ghost use Rattle.iss_node.specs.Saved.{holds, saved_of};
ghost use Rattle.iss_node.specs.State.{StateRefinesCore, seen_early, seen_one};
ghost use Rattle.iss_node.specs.Steps.{IsLater, IsSameNode};
ghost use Rattle.iss_rebuilt.specs.Reading.{Rebuilt, adopts_epochs, are_new, early_each, early_in, reads_entry, reads_snapshot, takes_requests, takes_votes};
ghost use Rattle.iss_rules.specs.Concrete.{rules_of};
ghost use Rattle.iss_rules.specs.Formats.{formats_of};
ghost use Rattle.iss_rules.specs.Past.{Past, adopts};
ghost use Rattle.iss_rules.specs.Votes.{is_true_cert};

use crate::answers::{Early, StepResult};
use crate::parcels::{Body, Parcel, unwrap};
use crate::state::NodeState;
use crate::transfer::at_slots;
use iss_ballots::Ballots;
use iss_buckets::Pending;
use iss_checkpoint::{Cert, Vote, check};
use iss_request::{Bytes, DecodeError, Epoch, NoMemory, Request, Seq, Value};
use iss_sb::Sequenced;
use iss_snapshot::{Snapshot, decode_snapshot, snapshots_are_exact};
use std::alloc::Global;

/// How many messages of the next epoch a node keeps.
const EARLY_MOST: usize = 256;

impl<M: Sequenced> NodeState<M> {
    /// Continues with a snapshot. Returns the messages that came early; `None` if the bytes are no snapshot, or not the
    /// next one. The only error is out of memory.
    pub(crate) fn read_entry(
        &mut self,
        alloc: Global,
        bytes: &[u8],
    ) -> Result<Option<Vec<Early<M::Msg>>>, NoMemory>
        ensures read { IfOk result (λ early. (r : Rebuilt M.Msg) → HasRead M.spec M.refines self.old r →
            IsReadAs M.spec M.refines
            (reads_entry (frame_of self.old.setup M.spec) self.old.me.0 (Some r) bytes.now) self.new
            (option_map (λ v. v.items) early)) }
        ensures same { IsSamePlace self.old self.new }
    {
        snapshots_are_exact();
        match decode_snapshot(alloc, self.setup.version, self.setup.epoch, bytes) {
            Ok(snapshot) => self.continue_with(alloc, snapshot),
            Err(DecodeError::BadField { .. }) => Ok(None),
            Err(DecodeError::NoMemory) => Err(NoMemory),
        }
    }

    fn continue_with(
        &mut self,
        alloc: Global,
        snapshot: Snapshot,
    ) -> Result<Option<Vec<Early<M::Msg>>>, NoMemory>
        requires { IsWhole self.old.setup.epoch snapshot }
        ensures read { IfOk result (λ early. (r : Rebuilt M.Msg) → HasRead M.spec M.refines self.old r →
            IsReadAs M.spec M.refines
            (reads_snapshot (frame_of self.old.setup M.spec) self.old.me.0 r snapshot) self.new
            (option_map (λ v. v.items) early)) }
        ensures same { IsSamePlace self.old self.new }
    {
        if !self.continues(&snapshot) {
            return Ok(None);
        }
        let Snapshot {
            to,
            epochs,
            leaf,
            waiting,
            certs,
            votes,
            early,
            ..
        } = snapshot;
        self.saved.note(to, certs.as_slice())?;
        self.begin_anew(alloc, leaf, certs)?;
        self.adopt_epochs(alloc, epochs)?;
        let full = self.refill(alloc, waiting, votes)?;
        if !full {
            return Ok(None);
        }
        self.messages_in(alloc, early.as_slice())
    }

    // Whether the snapshot begins where the one before it ended, its next leaf is within the key, and its certificates
    // are valid, rise by epoch, and are held by none before.
    fn continues(&self, snapshot: &Snapshot) -> bool
        ensures { result ≡ continues (frame_of self.now.setup M.spec) (saved_of self.now.saved) snapshot.now }
    {
        let _setup = &self.setup;
        let capacity = 1u32 << self.setup.keys;
        snapshot.from.0 == self.saved.from().0
            && (snapshot.leaf <= capacity && self.are_new(None, snapshot.certs.as_slice()))
    }

    // Whether the certificates are valid, rise by epoch above this one, and are held by no snapshot.
    fn are_new(&self, last: Option<u64>, certs: &[Cert]) -> bool
        ensures { result ≡ are_new (frame_of self.now.setup M.spec) (holds self.now.saved) (after last) certs.now }
    {
        match certs {
            [] => true,
            [first, others @ ..] => {
                self.is_new(last, first) && self.are_new(Some(first.epoch.0), others)
            }
        }
    }

    fn is_new(&self, last: Option<u64>, cert: &Cert) -> bool
        ensures { result ≡ (nat_le (after last) cert.now.epoch.0 &&
            (not (holds self.now.saved cert.now.epoch.0) && is_true_cert (rules_of self.now.setup) cert.now)) }
    {
        is_above(last, cert.epoch.0)
            && (!self.saved.holds(cert.epoch)
                && check(&self.setup, self.directory.directory(), cert))
    }

    // Keeps the certificates, and forgets the requests and votes of the snapshot before. The next leaf is given.
    fn begin_anew(&mut self, alloc: Global, leaf: u32, certs: Seq<Cert>) -> Result<(), NoMemory>
        requires { leaf ≤ 2 ^ self.old.setup.keys }
        ensures begun { OnOk result (HasBegun leaf certs self.old self.new) }
        ensures same { IsSameNode self.old self.new }
    {
        self.waiting = Pending::new(alloc);
        self.ballots.forget_votes();
        put_all(&mut self.ballots, certs)?;
        let directory = self.directory.directory();
        self.keys = directory.keys_of_node_at(alloc, self.me.0, leaf);
        Ok(())
    }

    // Adopts the epochs one after the other.
    fn adopt_epochs(&mut self, alloc: Global, epochs: Seq<Seq<Value>>) -> Result<(), NoMemory>
        requires { AreWhole self.old.setup.epoch epochs }
        ensures adopted { OnOk result ((past : Past M.Msg) (certs : List Certificate) (leaf : ℕ) →
            IsEmptied M.spec M.refines self.old past certs leaf →
            IsEmptied M.spec M.refines self.new (adopts_epochs past epochs) certs leaf) }
        ensures later { IsLater self.old self.new }
    {
        for values in epochs.into_vec() {
            self.adopt_epoch(alloc, values)?;
        }
        Ok(())
    }

    // Adopts the values of the current epoch, and starts the next one.
    fn adopt_epoch(&mut self, alloc: Global, values: Seq<Value>) -> Result<(), NoMemory>
        requires { length values ≡ self.old.setup.epoch }
        ensures adopted { OnOk result ((past : Past M.Msg) (certs : List Certificate) (leaf : ℕ) →
            IsEmptied M.spec M.refines self.old past certs leaf →
            IsEmptied M.spec M.refines self.new
            (adopts past (record { epoch = past.epoch; values = values })) certs leaf) }
        ensures later { IsLater self.old self.new }
    {
        let mut strings = Seq::new(alloc);
        let delivers = at_slots(alloc, self.layout.first(), values)?;
        self.apply_deliveries(alloc, delivers, &mut strings)?;
        let _none = self.next_epoch(alloc)?;
        Ok(())
    }

    // Takes the waiting requests and then the votes. Whether all were taken.
    fn refill(
        &mut self,
        alloc: Global,
        waiting: Seq<Request>,
        votes: Seq<Vote>,
    ) -> Result<bool, NoMemory>
        ensures taken { IfOk result (λ all. (c : Core M.Msg) → StateRefinesCore M.spec M.refines self.old c →
            AreTaken M.spec M.refines (takes_votes (frame_of self.old.setup M.spec) votes
            (takes_requests (frame_of self.old.setup M.spec) self.old.me.0 waiting (Some c))) self.new all) }
        ensures same { IsSameNode self.old self.new }
    {
        let all = self.take_requests(alloc, waiting)?;
        if !all {
            return Ok(false);
        }
        self.take_votes(alloc, votes)
    }

    // Whether all requests were taken.
    fn take_requests(&mut self, alloc: Global, requests: Seq<Request>) -> Result<bool, NoMemory>
        ensures taken { IfOk result (λ all. (c : Core M.Msg) → StateRefinesCore M.spec M.refines self.old c →
            AreTaken M.spec M.refines
            (takes_requests (frame_of self.old.setup M.spec) self.old.me.0 requests (Some c)) self.new all) }
        ensures same { IsSameNode self.old self.new }
    {
        for request in requests.into_vec() {
            let step = self.take_request(alloc, request)?;
            if !was_taken(step) {
                return Ok(false);
            }
        }
        Ok(true)
    }

    // Whether all votes were counted.
    fn take_votes(&mut self, alloc: Global, votes: Seq<Vote>) -> Result<bool, NoMemory>
        ensures taken { IfOk result (λ all. (c : Core M.Msg) → StateRefinesCore M.spec M.refines self.old c →
            AreTaken M.spec M.refines (takes_votes (frame_of self.old.setup M.spec) votes (Some c)) self.new all) }
        ensures same { IsSameNode self.old self.new }
    {
        for vote in votes.into_vec() {
            let step = self.take_vote(alloc, vote)?;
            if !was_taken(step) {
                return Ok(false);
            }
        }
        Ok(true)
    }

    // The messages of the current epoch in these packets, if each is one and there are not too many.
    fn messages_in(
        &self,
        alloc: Global,
        packets: &[Bytes],
    ) -> Result<Option<Vec<Early<M::Msg>>>, NoMemory>
        ensures read { IfOk result (λ early. option_map (λ v. seen_early v.items) early ≡
            kept_early (early_each (frame_of self.now.setup M.spec) self.now.epoch packets.now)) }
        ensures from { IfOk result (λ early. IfSome early (λ v. AreFrom self.now.setup.n v.items)) }
    {
        if packets.len() > EARLY_MOST {
            return Ok(None);
        }
        let mut early = Vec::new(alloc);
        for packet in packets {
            match self.message_in(alloc, packet)? {
                Some(message) => early.push(message)?,
                None => return Ok(None),
            }
        }
        Ok(Some(early))
    }

    // The message of the current epoch in this packet.
    fn message_in(&self, alloc: Global, packet: &Bytes) -> Result<Option<Early<M::Msg>>, NoMemory>
        ensures read { IfOk result (λ early. option_map seen_one early ≡
            early_in self.now.epoch ((formats_of self.now.setup M.spec).unwrap packet.now)) }
        ensures from { IfOk result (λ early. IfSome early (λ x. x.from.0 < self.now.setup.n)) }
    {
        match unwrap::<M>(alloc, &self.setup, packet)? {
            Some(parcel) => Ok(early_of(self.epoch, parcel)),
            None => Ok(None),
        }
    }
}

// Whether a step was taken.
fn was_taken(step: StepResult) -> bool
    ensures { result ≡ was_taken step }
{
    match step {
        Ok(_) => true,
        Err(_) => false,
    }
}

// The message in a parcel, if it is one of this epoch.
fn early_of<T: Drop>(epoch: Epoch, parcel: Parcel<T>) -> Option<Early<T>>
    ensures read { option_map seen_one result ≡ early_in epoch.0 (Some (seen_some parcel)) }
    ensures from { (n : ℕ) → IsFromNode n parcel → IfSome result (λ x. x.from.0 < n) }
{
    let Parcel {
        from,
        epoch: of,
        body,
    } = parcel;
    if of.0 != epoch.0 {
        return None;
    }
    match body {
        Body::Message { leader, msg } => Some(Early { from, leader, msg }),
        _ => None,
    }
}

// Keeps these certificates.
fn put_all(ballots: &mut Ballots, certs: Seq<Cert>) -> Result<(), NoMemory>
    ensures kept { OnOk result ((votes : List Voted) (older : List Certificate) → AreKept ballots.old votes older →
        AreKept ballots.new votes (reverse certs ++ older)) }
    ensures voters { ballots.new.voters ≡ ballots.old.voters }
{
    for cert in certs.into_vec() {
        ballots.put(cert)?;
    }
    Ok(())
}

// Whether the epoch is above this one, if there is one.
fn is_above(last: Option<u64>, epoch: u64) -> bool
    ensures { result ≡ nat_le (after last) epoch }
{
    match last {
        None => true,
        Some(last) => last < epoch,
    }
}
