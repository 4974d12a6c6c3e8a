//! The signatures that votes and certificates claim.
ghost use Rattle.std.specs.Prelude.{◌≡◌, IfOk};
ghost use Rattle.iss_ballots.specs.Claims.{claim_by};
ghost use Rattle.iss_checkpoint.specs.Votes.{vote_statement};
ghost use Rattle.iss_rules.specs.Votes.{claims_by};

use iss_checkpoint::{Cert, Vote, vote_statement};
use iss_request::{Bytes, NoMemory, Seq};
use iss_sb::{Claim, Signed};
use std::alloc::Global;

/// The signature that a vote claims, in the cluster with this tag.
pub fn claim_of_vote(alloc: Global, tag: &[u8; 32], vote: &Vote) -> Result<Claim, NoMemory>
    ensures { IfOk result (λ c. c ≡ claim_by tag.now vote.now) }
{
    let statement = vote_statement(tag, vote.epoch.0, &vote.chain, vote.requests);
    Ok(Claim {
        by: vote.by,
        statement: bytes_of(alloc, &statement)?,
        sig: vote.sig.copy()?,
    })
}

/// The signatures that a certificate claims: one vote for each of its signers.
pub fn claims_of_cert(alloc: Global, tag: &[u8; 32], cert: &Cert) -> Result<Seq<Claim>, NoMemory>
    ensures { IfOk result (λ cs.
        cs ≡ claims_by (vote_statement tag.now cert.now.epoch.0 cert.now.chain cert.now.requests) cert.now.signers) }
{
    let statement = vote_statement(tag, cert.epoch.0, &cert.chain, cert.requests);
    claims_by(alloc, &statement, cert.signers.as_slice())
}

// The claims of several signers on one statement.
fn claims_by(alloc: Global, statement: &[u8], signers: &[Signed]) -> Result<Seq<Claim>, NoMemory>
    ensures { IfOk result (λ cs. cs ≡ claims_by statement.now signers.now) }
{
    let mut claims = Seq::new(alloc);
    for signed in signers {
        let statement = bytes_of(alloc, statement)?;
        let sig = signed.sig.copy()?;
        claims.push(Claim {
            by: signed.by,
            statement,
            sig,
        })?;
    }
    Ok(claims)
}

fn bytes_of(alloc: Global, bytes: &[u8]) -> Result<Bytes, NoMemory>
    ensures { IfOk result (λ b. b ≡ bytes.now) }
{
    Ok(Bytes::of(Vec::from_slice(alloc, bytes)?))
}
