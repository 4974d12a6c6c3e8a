//! Counting checkpoint votes, one for each node, until a quorum of them is equal.
ghost use Rattle.std.specs.Prelude.{◌≡◌, ◌≤◌, ◌++◌, ◌∷◌, [], length, if◌then◌else◌, IfOk, OnOk, OnErr, None};
ghost use Rattle.iss_checkpoint.specs.Tallies.{IsAdded, IsChecked, IsCounted, certificate_by, refusal, say_same, signed_below, signed_if, with_vote};
ghost use Rattle.iss_checkpoint.specs.Votes.{is_signed, statement_of, voters_of};

use crate::checking::is_signed;
use crate::votes::{Cert, Vote, vote_statement};
use iss_keys::SharedDirectory;
use iss_request::{Epoch, NoMemory, Seq, Setup};
use iss_sb::Signed;
use std::alloc::Global;
use std::collections::BTreeMap;
use std::marker::Model;

/// Why a vote is not counted.
#[derive(Clone, Copy, Debug, PartialEq, Eq)]
pub enum Refusal {
    /// The vote is for another epoch.
    OtherEpoch,
    /// The signer does not exist, or its signature is invalid.
    BadSignature,
    /// The signer's vote was counted before.
    Twice,
}

/// The result of adding a vote.
#[derive(Drop)]
pub enum Added {
    /// The vote was counted.
    Counted,
    /// The vote completed a quorum of equal votes: this is their certificate.
    Stable(Cert),
    /// The vote was not counted.
    Refused(Refusal),
}

/// The votes for one epoch, one for each node.
#[derive(Drop)]
pub struct Tally {
    alloc: Global,
    epoch: Epoch,
    tag: [u8; 32],
    n: u32,
    quorum: u32,
    directory: SharedDirectory,
    // by signer
    votes: BTreeMap<u8, Vote>,
}

impl Model for Tally {
    ghost use Rattle.iss_checkpoint.specs.Tallies.{AreVotes, TallyState};
    ghost use Rattle.iss_checkpoint.specs.Votes.{voters_in};
    ghost use Rattle.std.specs.Prelude.{◌≤◌};

    ghost Value = { TallyState };

    ghost view = { λ t. record {
      voters = voters_in t.tag t.n t.quorum t.directory;
      epoch = t.epoch.0;
      votes = t.votes.entries;
    } };

    ghost invariant = { λ t. (t.n ≤ 256)
        × AreVotes (voters_in t.tag t.n t.quorum t.directory) t.epoch.0 t.votes.entries };
}

impl Tally {
    /// No vote for this epoch yet.
    pub fn new(alloc: Global, setup: &Setup, directory: SharedDirectory, epoch: Epoch) -> Tally
        requires { setup.now.n ≤ 256 }
        ensures { result ≡ record { voters = voters_of setup.now directory; epoch = epoch.0; votes = [] } }
    {
        Tally {
            alloc,
            epoch,
            tag: setup.tag,
            n: setup.n,
            quorum: setup.quorum,
            directory,
            votes: BTreeMap::new(alloc),
        }
    }

    /// Counts a vote, unless it is refused. The vote that completes a quorum of equal votes gives their certificate.
    /// The only error is out of memory, and then nothing changes.
    // rule: Checkpoints: The vote that completes a quorum gives the epoch's certificate; no later one does
    pub fn add(&mut self, vote: Vote) -> Result<Added, NoMemory>
        ensures added { IsAdded self.old vote self.new result }
        ensures checked { IsChecked self.old.voters result }
    {
        if let Some(cause) = self.refusal(&vote) {
            return Ok(Added::Refused(cause));
        }
        if self.count(&vote) != self.quorum {
            self.put(vote)?;
            return Ok(Added::Counted);
        }
        let cert = self.certificate(&vote)?;
        self.put(vote)?;
        Ok(Added::Stable(cert))
    }

    // The first reason to refuse a vote.
    // rule: Checkpoints: A tally refuses a vote for its first fault: other epoch, bad signature, repeated
    fn refusal(&self, vote: &Vote) -> Option<Refusal>
        ensures { result ≡ refusal self.now vote.now }
    {
        if vote.epoch.0 != self.epoch.0 {
            return Some(Refusal::OtherEpoch);
        }
        if !self.is_true(vote) {
            return Some(Refusal::BadSignature);
        }
        if self.votes.contains_key(&vote.by.0) {
            return Some(Refusal::Twice);
        }
        None
    }

    // Whether the vote's signature is valid.
    fn is_true(&self, vote: &Vote) -> bool
        ensures { result ≡ is_signed self.now.voters (statement_of self.now.voters vote.now) vote.now.by.0
            vote.now.sig }
    {
        let statement = vote_statement(&self.tag, vote.epoch.0, &vote.chain, vote.requests);
        let directory = self.directory.directory();
        is_signed(
            directory,
            self.n,
            &statement,
            vote.by.0,
            vote.sig.as_slice(),
        )
    }

    // The number of votes equal to this one, which counts too.
    fn count(&self, vote: &Vote) -> u32
        ensures { result ≡ length (signed_below (with_vote self.now.votes vote.now) vote.now self.now.voters.n) }
    {
        let mut count = 0u32;
        for node in 0..self.n {
            if self.agrees(vote, node as u8) {
                count += 1;
            }
        }
        count
    }

    // Whether a node's vote equals this one.
    fn agrees(&self, vote: &Vote, node: u8) -> bool
        ensures { (if result then 1 else 0) ≡ length (signed_if vote.now (with_vote self.now.votes vote.now node)) }
    {
        if vote.by.0 == node {
            return true;
        }
        match self.votes.get(&node) {
            Some(other) => say_same(vote, other),
            None => false,
        }
    }

    // The certificate of the votes equal to this one, which counts too.
    fn certificate(&self, vote: &Vote) -> Result<Cert, NoMemory>
        ensures { IfOk result (λ c. c ≡ certificate_by (with_vote self.now.votes vote.now) vote.now self.now.voters.n) }
    {
        let mut signers = Seq::new(self.alloc);
        for node in 0..self.n {
            self.put_signed(vote, node as u8, &mut signers)?;
        }
        Ok(Cert {
            epoch: vote.epoch,
            chain: vote.chain,
            requests: vote.requests,
            signers,
        })
    }

    // Appends a node's signature if its vote equals this one.
    fn put_signed(&self, vote: &Vote, node: u8, signers: &mut Seq<Signed>) -> Result<(), NoMemory>
        ensures { OnOk result (signers.new ≡ signers.old ++ signed_if vote.now
            (with_vote self.now.votes vote.now node)) }
    {
        if vote.by.0 == node {
            return push_signed(vote, signers);
        }
        if let Some(other) = self.votes.get(&node)
            && say_same(vote, other)
        {
            return push_signed(other, signers);
        }
        Ok(())
    }

    // Adds the vote of a node that has none.
    fn put(&mut self, vote: Vote) -> Result<(), NoMemory>
        requires { refusal self.old vote ≡ None }
        ensures ok { OnOk result (IsCounted self.old vote self.new) }
        ensures err { OnErr result (self.new ≡ self.old) }
    {
        let by = vote.by.0;
        self.votes.insert(by, vote)?;
        Ok(())
    }
}

// Whether two votes certify the same log.
// rule: Checkpoints: Two votes agree if their chains and counts are equal
fn say_same(vote: &Vote, other: &Vote) -> bool
    ensures { result ≡ say_same vote.now other.now }
{
    other.requests == vote.requests && other.chain == vote.chain
}

// Appends the vote's signature.
fn push_signed(vote: &Vote, signers: &mut Seq<Signed>) -> Result<(), NoMemory>
    ensures { OnOk result (signers.new ≡ signers.old ++ record { by = vote.now.by; sig = vote.now.sig } ∷ []) }
{
    let sig = vote.sig.copy()?;
    signers.push(Signed { by: vote.by, sig })
}
