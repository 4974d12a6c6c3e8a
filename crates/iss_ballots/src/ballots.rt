//! Checkpoint votes and certificates, by epoch.
ghost use Rattle.std.specs.Prelude.{◌≡◌, ◌++◌, ◌∷◌, ◌==◌, ◌≤◌, [], None, List, ℕ, IfOk, OnOk, is_some, not, option_map};
ghost use Rattle.iss_ballots.specs.Ballots.{AreKept, HasTally, IsCertified, IsTaken, IsUntallied, cert_at, is_true, refused, tally_at, tally_or};
ghost use Rattle.iss_checkpoint.specs.Votes.{voters_of};
ghost use Rattle.iss_checkpoint.specs.declared.votes.Cert.{Cert as Certificate};
ghost use Rattle.iss_checkpoint.specs.declared.votes.Vote.{Vote as Voted};
ghost use Rattle.iss_rules.specs.Votes.{cert_on, keeping};

use iss_checkpoint::checking::is_signed;
use iss_checkpoint::{Added, Cert, Refusal, Tally, Vote, vote_statement};
use iss_keys::SharedDirectory;
use iss_request::{Epoch, NoMemory, Setup};
use std::alloc::Global;
use std::collections::BTreeMap;
use std::marker::Model;

/// The result of a vote.
#[derive(Clone, Copy, Debug, PartialEq, Eq)]
pub enum Taking {
    /// The vote was counted.
    Counted,
    /// The signature is invalid.
    BadSignature,
    /// The signer voted before, or the epoch already has a certificate.
    Known,
}

/// The votes of each epoch without a certificate, and the certificates of the others (PBFT: stable checkpoints).
#[derive(Drop)]
pub struct Ballots {
    alloc: Global,
    setup: Setup,
    directory: SharedDirectory,
    // By epoch: the votes of those without a certificate, and the certificates.
    tallies: BTreeMap<u64, Tally>,
    certs: BTreeMap<u64, Cert>,
    // The votes of all epochs without a certificate, in the order in which they were counted.
    counted: Vec<Vote>,
}

impl Model for Ballots {
    ghost use Rattle.std.specs.Prelude.{◌≤◌};
    ghost use Rattle.iss_ballots.specs.Ballots.{AreTallies, BallotsState};
    ghost use Rattle.iss_checkpoint.specs.Votes.{voters_of};

    ghost Value = { BallotsState };

    ghost view = { λ b. record {
      voters = voters_of b.setup b.directory;
      tallies = b.tallies.entries;
      certs = b.certs.entries;
      counted = b.counted.items;
    } };

    ghost invariant = { λ b. (b.setup.n ≤ 256) × AreTallies (voters_of b.setup b.directory) b.tallies.entries };
}

impl Ballots {
    /// No votes and no certificates. The only error is out of memory.
    pub fn new(
        alloc: Global,
        setup: &Setup,
        directory: &SharedDirectory,
    ) -> Result<Ballots, NoMemory>
        requires { setup.now.n ≤ 256 }
        ensures { IfOk result (λ b. b ≡ record {
          voters = voters_of setup.now directory.now;
          tallies = [];
          certs = [];
          counted = [];
        }) }
    {
        Ok(Ballots {
            alloc,
            setup: setup.copy()?,
            directory: directory.share(),
            tallies: BTreeMap::new(alloc),
            certs: BTreeMap::new(alloc),
            counted: Vec::new(alloc),
        })
    }

    /// Counts a vote, unless its signature is invalid, its signer voted before, or the epoch has a certificate. If a
    /// quorum then agrees, the epoch gets its certificate. The only error is out of memory.
    // rule: Checkpoints: The vote that completes a quorum gives the epoch's certificate; no later one does
    pub fn take(&mut self, vote: Vote) -> Result<Taking, NoMemory>
        ensures taken { IfOk result (λ t. (votes : List Voted) (certs : List Certificate) →
            AreKept self.old votes certs → IsTaken votes certs vote self.new t) }
        ensures voters { self.new.voters ≡ self.old.voters }
    {
        if !self.has_cert(vote.epoch) {
            return self.count(vote);
        }
        if self.is_true(&vote) {
            return Ok(Taking::Known);
        }
        Ok(Taking::BadSignature)
    }

    /// Keeps a certificate, unless its epoch already has one. The only error is out of memory.
    // rule: Checkpoints: Of each epoch the first certificate is kept, counted or adopted
    pub fn keep(&mut self, cert: Cert) -> Result<(), NoMemory>
        ensures kept { OnOk result ((votes : List Voted) (certs : List Certificate) → AreKept self.old votes certs →
            AreKept self.new votes (keeping certs cert (cert_on certs cert.epoch.0))) }
        ensures voters { self.new.voters ≡ self.old.voters }
    {
        if self.has_cert(cert.epoch) {
            return Ok(());
        }
        self.put(cert)
    }

    /// Keeps a certificate, and replaces one that its epoch may have. The only error is out of memory.
    pub fn put(&mut self, cert: Cert) -> Result<(), NoMemory>
        ensures kept { OnOk result ((votes : List Voted) (certs : List Certificate) → AreKept self.old votes certs →
            AreKept self.new votes (cert ∷ certs)) }
        ensures voters { self.new.voters ≡ self.old.voters }
    {
        let _tally = self.take_tally(cert.epoch);
        self.certify(cert)
    }

    /// The certificate of an epoch, if there is one.
    pub fn cert_at(&self, epoch: Epoch) -> Option<&Cert>
        ensures held { option_map (λ c. c.now) result ≡ cert_at self.now.certs epoch.0 }
        ensures kept { (votes : List Voted) (certs : List Certificate) → AreKept self.now votes certs →
            option_map (λ c. c.now) result ≡ cert_on certs epoch.0 }
    {
        self.certs.get(&epoch.0)
    }

    /// The votes of epochs without a certificate, in the order in which they were counted.
    pub fn open_votes(&self) -> &[Vote]
        ensures { result.now ≡ self.now.counted }
    {
        self.counted.as_slice()
    }

    /// Forgets the votes of epochs without a certificate.
    pub fn forget_votes(&mut self)
        ensures kept { (votes : List Voted) (certs : List Certificate) → AreKept self.old votes certs →
            AreKept self.new [] certs }
        ensures voters { self.new.voters ≡ self.old.voters }
    {
        self.tallies.clear();
        self.counted.clear();
    }

    // Whether the epoch has a certificate.
    fn has_cert(&self, epoch: Epoch) -> bool
        ensures { result ≡ is_some (cert_at self.now.certs epoch.0) }
    {
        self.certs.contains_key(&epoch.0)
    }

    // Counts a vote on an epoch without a certificate. Here `Known` means that the signer voted before.
    fn count(&mut self, vote: Vote) -> Result<Taking, NoMemory>
        requires { cert_at self.old.certs vote.epoch.0 ≡ None }
        ensures taken { IfOk result (λ t. (votes : List Voted) (certs : List Certificate) →
            AreKept self.old votes certs → IsTaken votes certs vote self.new t) }
        ensures voters { self.new.voters ≡ self.old.voters }
    {
        let _setup = &self.setup;
        let epoch = vote.epoch;
        let copy = copy_of_vote(&vote)?;
        let mut tally = self.take_tally(epoch);
        match tally.add(vote)? {
            Added::Counted => {
                self.put_tally(epoch, tally)?;
                self.note(copy)?;
                Ok(Taking::Counted)
            }
            Added::Stable(cert) => {
                self.certify(cert)?;
                Ok(Taking::Counted)
            }
            Added::Refused(cause) => {
                self.put_tally(epoch, tally)?;
                Ok(refused(cause))
            }
        }
    }

    // Takes out the tally of an epoch, or makes one without votes.
    fn take_tally(&mut self, epoch: Epoch) -> Tally
        ensures tally { result ≡ tally_or self.old.voters epoch.0 (tally_at self.old.tallies epoch.0) }
        ensures rest { IsUntallied epoch.0 self.old self.new }
    {
        match self.tallies.remove(&epoch.0) {
            Some(tally) => tally,
            None => Tally::new(self.alloc, &self.setup, self.directory.share(), epoch),
        }
    }

    // Puts a tally in its place.
    fn put_tally(&mut self, epoch: Epoch, tally: Tally) -> Result<(), NoMemory>
        requires { (tally.voters ≡ self.old.voters) × (tally.epoch ≡ epoch.0) }
        ensures put { OnOk result (HasTally tally self.old self.new) }
        ensures voters { self.new.voters ≡ self.old.voters }
    {
        self.tallies.insert(epoch.0, tally)?;
        Ok(())
    }

    // Adds a vote behind those that were counted.
    fn note(&mut self, vote: Vote) -> Result<(), NoMemory>
        ensures noted { OnOk result (self.new ≡ record self.old { counted = self.old.counted ++ vote ∷ [] }) }
        ensures voters { self.new.voters ≡ self.old.voters }
    {
        self.counted.push(vote)?;
        Ok(())
    }

    // Gives an epoch its certificate, and forgets its votes.
    fn certify(&mut self, cert: Cert) -> Result<(), NoMemory>
        ensures certified { OnOk result (IsCertified cert self.old self.new) }
        ensures voters { self.new.voters ≡ self.old.voters }
    {
        let epoch = cert.epoch.0;
        self.counted.retain(
            |vote: &Vote| -> bool
                ensures { result ≡ not (vote.now.epoch.0 == epoch) }
            { vote.epoch.0 != epoch },
        );
        self.certs.insert(epoch, cert)?;
        Ok(())
    }

    // Whether the vote's signature is valid.
    fn is_true(&self, vote: &Vote) -> bool
        ensures { result ≡ is_true self.now.voters vote.now }
    {
        let setup = &self.setup;
        let statement = vote_statement(&setup.tag, vote.epoch.0, &vote.chain, vote.requests);
        let directory = self.directory.directory();
        is_signed(
            directory,
            setup.n,
            &statement,
            vote.by.0,
            vote.sig.as_slice(),
        )
    }
}

// The result of a vote that a tally refuses.
fn refused(cause: Refusal) -> Taking
    ensures { result ≡ refused cause }
{
    match cause {
        Refusal::Twice => Taking::Known,
        Refusal::BadSignature | Refusal::OtherEpoch => Taking::BadSignature,
    }
}

/// A copy of the vote. The only error is out of memory.
pub fn copy_of_vote(vote: &Vote) -> Result<Vote, NoMemory>
    ensures { IfOk result (λ v. v ≡ vote.now) }
{
    Ok(Vote {
        epoch: vote.epoch,
        chain: vote.chain,
        requests: vote.requests,
        by: vote.by,
        sig: vote.sig.copy()?,
    })
}
