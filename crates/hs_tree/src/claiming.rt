//! What the sender of a message signs, and what a message claims that replicas signed.
ghost use Rattle.std.specs.Prelude.{◌≡◌, ◌++◌, IfOk, OnOk};
ghost use Rattle.iss_sb.specs.Statements.{claim};
ghost use Rattle.hs_tree.specs.Protocols.{form_of};
ghost use Rattle.hs_tree.specs.Statements.{certificate_claims, claims, inside, stated};

use crate::messages::{Body, Message, Poll};
use crate::protocols::Protocol;
use crate::signing::{
    hash_node, node_statement, put_certificate_claims, round_statement, start_statement,
    vote_statement,
};
use crate::wire::{COMMIT, DECIDE, PRE_COMMIT, PREPARE};
use iss_request::{Bytes, NoMemory, NodeId, Seq};
use iss_sb::{Claim, Params};
use std::alloc::Global;

// The statement of a body, which its sender signs.
fn body_statement(
    alloc: Global,
    protocol: Protocol,
    p: &Params,
    body: &Body,
) -> Result<Bytes, NoMemory>
    ensures { IfOk result (λ s. s ≡ stated (form_of protocol) p.now body.now) }
{
    let tag = protocol.tag();
    let out = start_statement(alloc, p, tag)?;
    match body {
        Body::NewView { round, high } => round_statement(out, *round, high.view()),
        Body::Prepare { view, what, just } => {
            let shown = protocol.shown_view(*view);
            let node = hash_node(alloc, p, shown, &just.digest(), what)?;
            node_statement(out, PREPARE, *view, &node.digest)
        }
        Body::PreCommit { view, shown } => {
            node_statement(out, PRE_COMMIT, *view, &shown.digest())
        }
        Body::Commit { view, shown } => node_statement(out, COMMIT, *view, &shown.digest()),
        Body::Decide { view, shown } => node_statement(out, DECIDE, *view, &shown.digest()),
        Body::Vote {
            phase,
            view,
            digest,
        } => {
            let poll = Poll {
                phase: *phase,
                view: *view,
                digest: *digest,
            };
            vote_statement(out, &poll)
        }
    }
}

// Appends the claims of the certificate in the body.
fn put_inside(
    alloc: Global,
    protocol: Protocol,
    p: &Params,
    body: &Body,
    all: &mut Seq<Claim>,
) -> Result<(), NoMemory>
    ensures { OnOk result (all.new ≡ all.old ++ certificate_claims (form_of protocol) p.now (inside body.now)) }
{
    let tag = protocol.tag();
    match body {
        Body::NewView { high, .. } => put_certificate_claims(alloc, p, tag, high, all),
        Body::Prepare { just, .. } => put_certificate_claims(alloc, p, tag, just, all),
        Body::PreCommit { shown, .. } => put_certificate_claims(alloc, p, tag, shown, all),
        Body::Commit { shown, .. } => put_certificate_claims(alloc, p, tag, shown, all),
        Body::Decide { shown, .. } => put_certificate_claims(alloc, p, tag, shown, all),
        Body::Vote { .. } => Ok(()),
    }
}

// The claim that the sender signed the message.
fn own_claim(
    alloc: Global,
    protocol: Protocol,
    p: &Params,
    from: NodeId,
    m: &Message,
) -> Result<Claim, NoMemory>
    ensures { IfOk result (λ c. c ≡ claim from.0 (stated (form_of protocol) p.now m.now.body) m.now.sig) }
{
    let statement = body_statement(alloc, protocol, p, &m.body)?;
    let sig = m.sig.copy()?;
    Ok(Claim {
        by: from,
        statement,
        sig,
    })
}

/// The claims of a message: the votes of its certificate, then the sender's own signature. The only error is out of
/// memory.
// rule: HotStuff: A message claims the votes of its certificate, then its sender's signature
pub fn claims(
    alloc: Global,
    protocol: Protocol,
    p: &Params,
    from: NodeId,
    m: &Message,
) -> Result<Seq<Claim>, NoMemory>
    ensures { IfOk result (λ all. all ≡ claims (form_of protocol) p.now from.0 m.now) }
{
    let mut all = Seq::new(alloc);
    put_inside(alloc, protocol, p, &m.body, &mut all)?;
    let own = own_claim(alloc, protocol, p, from, m)?;
    all.push(own)?;
    Ok(all)
}
