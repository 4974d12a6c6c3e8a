//! A node as a snapshot, as it enters an epoch.
ghost use Rattle.std.specs.Prelude.{◌≡◌, ◌-◌, suc, List, IfOk, OnOk};
ghost use Rattle.iss_base.specs.Lists.{below};
ghost use Rattle.iss_ballots.specs.Ballots.{AreKept};
ghost use Rattle.iss_checkpoint.specs.declared.votes.Cert.{Cert as Certificate};
ghost use Rattle.iss_checkpoint.specs.declared.votes.Vote.{Vote as Voted};
ghost use Rattle.iss_keys.specs.Directories.{AreKeysOf};
ghost use Rattle.iss_model.specs.Frames.{frame_of};
ghost use Rattle.iss_node.specs.Entered.{IsEntryOf, IsSnapshotOf};
ghost use Rattle.iss_node.specs.Internal.Ready.{RefinesSome};
ghost use Rattle.iss_node.specs.Internal.Storing.{and_new_cert, epochs_to};
ghost use Rattle.iss_node.specs.Saved.{HasSaved, holds};
ghost use Rattle.iss_node.specs.State.{seen_early};
ghost use Rattle.iss_rebuilt.specs.Stored.{new_certs, packets_of};

use crate::answers::Early;
use crate::parcels::{Origin, wrap};
use crate::state::NodeState;
use iss_ballots::{copy_of_cert, copy_of_vote};
use iss_checkpoint::{Cert, Vote};
use iss_request::{Bytes, Epoch, NoMemory, Seq, Value, sum};
use iss_sb::Sequenced;
use iss_snapshot::{Snapshot, encode_snapshot};
use std::alloc::Global;

impl<M: Sequenced> NodeState<M> {
    /// The encoded snapshot of the node that has just entered its epoch, with the messages that it takes next. The only
    /// error is out of memory.
    pub(crate) fn entry(&self, alloc: Global, early: &[Early<M::Msg>]) -> Result<Bytes, NoMemory>
        requires { RefinesSome M.spec M.refines self.now }
        ensures { IfOk result (λ bytes. IsEntryOf M.spec M.refines self.now early.now bytes) }
    {
        let snapshot = self.snapshot(alloc, early)?;
        encode_snapshot(alloc, self.setup.version, &snapshot)
    }

    /// Notes that a snapshot of the current epoch stands in the journal.
    // rule: Persistence: A snapshot that is handed out is noted by its end and its certificates
    pub(crate) fn note_saved(&mut self, alloc: Global) -> Result<(), NoMemory>
        ensures noted { OnOk result ((votes : List Voted) (certs : List Certificate) →
            AreKept self.old.ballots votes certs → HasSaved self.old.saved self.old.epoch
            (new_certs (holds self.old.saved) certs (below (suc (suc self.old.epoch)))) self.new.saved) }
        ensures rest { self.new ≡ record self.old { saved = self.new.saved } }
    {
        let certs = self.new_certs(alloc)?;
        self.saved.note(self.epoch, certs.as_slice())
    }

    // rule: Persistence: A snapshot has the values and certificates that no earlier one has, and the next leaf
    fn snapshot(&self, alloc: Global, early: &[Early<M::Msg>]) -> Result<Snapshot, NoMemory>
        requires { RefinesSome M.spec M.refines self.now }
        ensures { IfOk result (λ s. IsSnapshotOf M.spec M.refines self.now early.now s) }
    {
        let from = self.saved.from();
        Ok(Snapshot {
            from,
            to: self.epoch,
            epochs: self.epochs_from(alloc, from)?,
            leaf: self.next_leaf(),
            waiting: self.waiting.requests(alloc)?,
            certs: self.new_certs(alloc)?,
            votes: copies_of_votes(alloc, self.ballots.open_votes())?,
            early: self.packets_of(alloc, early)?,
        })
    }

    // The next unused leaf of the node's key.
    fn next_leaf(&self) -> u32
        ensures { AreKeysOf self.now.me.0 self.now.setup.keys self.now.keys → result ≡ self.now.keys.used }
    {
        let _setup = &self.setup;
        (1u32 << self.setup.keys).saturating_sub(self.keys.left())
    }

    // The values of the epochs from `from` on and before the current one.
    fn epochs_from(&self, alloc: Global, from: Epoch) -> Result<Seq<Seq<Value>>, NoMemory>
        requires { RefinesSome M.spec M.refines self.now }
        ensures { IfOk result (λ epochs. epochs ≡ epochs_to self.now.setup.epoch self.now.log.entries from.0
            (self.now.epoch - from.0)) }
    {
        let mut epochs = Seq::new(alloc);
        for epoch in from.0..self.epoch.0 {
            let Some(values) = self.values_of(alloc, Epoch(epoch))? else {
                unreachable!();
            };
            epochs.push(values)?;
        }
        Ok(epochs)
    }

    // The certificates that no snapshot holds, by epoch. None is more than one epoch ahead.
    fn new_certs(&self, alloc: Global) -> Result<Seq<Cert>, NoMemory>
        ensures { IfOk result (λ cs. (votes : List Voted) (certs : List Certificate) →
            AreKept self.now.ballots votes certs →
            cs ≡ new_certs (holds self.now.saved) certs (below (suc (suc self.now.epoch)))) }
    {
        let end = sum(self.epoch.0, 2)?;
        let low = self.saved.low().min(end);
        let mut certs = Seq::new(alloc);
        for epoch in low..end {
            self.put_new_cert(alloc, Epoch(epoch), &mut certs)?;
        }
        Ok(certs)
    }

    // Appends the certificate of an epoch, if there is one that no snapshot holds.
    fn put_new_cert(
        &self,
        alloc: Global,
        epoch: Epoch,
        certs: &mut Seq<Cert>,
    ) -> Result<(), NoMemory>
        ensures { OnOk result (certs.new ≡ and_new_cert self.now epoch.0 certs.old) }
    {
        if self.saved.holds(epoch) {
            return Ok(());
        }
        match self.ballots.cert_at(epoch) {
            Some(cert) => certs.push(copy_of_cert(alloc, cert)?),
            None => Ok(()),
        }
    }

    // The early messages as the packets that they came in.
    // rule: Persistence: A snapshot is of the node as it enters an epoch, with the early messages that it takes next
    fn packets_of(&self, alloc: Global, early: &[Early<M::Msg>]) -> Result<Seq<Bytes>, NoMemory>
        ensures { IfOk result (λ packets.
            packets ≡ packets_of (frame_of self.now.setup M.spec) self.now.epoch (seen_early early.now)) }
    {
        let mut packets = Seq::new(alloc);
        for message in early {
            let origin = Origin {
                node: message.from,
                epoch: self.epoch,
                leader: message.leader,
            };
            packets.push(wrap::<M>(alloc, self.setup.version, origin, &message.msg)?)?;
        }
        Ok(packets)
    }
}

fn copies_of_votes(alloc: Global, votes: &[Vote]) -> Result<Seq<Vote>, NoMemory>
    ensures { IfOk result (λ copies. copies ≡ votes.now) }
{
    let mut copies = Seq::new(alloc);
    for vote in votes {
        copies.push(copy_of_vote(vote)?)?;
    }
    Ok(copies)
}
