//! Messages before they are signed, and their signing.
ghost use Rattle.std.specs.Prelude.{◌≡◌, ◌≤◌, ◌<◌, ◌+◌, ◌++◌, ◌∷◌, [], ℕ, List, Some, IfOk, OnOk};
ghost use Rattle.iss_keys.specs.Directories.{AreKeysOf};
ghost use Rattle.iss_keys.specs.KeyStates.{left_of};
ghost use Rattle.iss_sb.specs.Calls.{AreToNodes, IsToNode};
ghost use Rattle.iss_sb.specs.declared.effects.To.{To};
ghost use Rattle.iss_sb.specs.declared.effects.To.TheVariants.{All as To_all};
ghost use Rattle.hs_tree.specs.declared.messages.Body.TheVariants.{NewView, Prepare};
ghost use Rattle.hs_tree.specs.declared.messages.Body.{Body};
ghost use Rattle.hs_tree.specs.Protocols.{form_of};
ghost use Rattle.hs_tree.specs.Statements.{node_digest};
ghost use Rattle.hs_tree.specs.Tree.{Form};
ghost use Rattle.hs_views.specs.Drafts.{AreDrafts, count_of, to_nodes};
ghost use Rattle.hs_views.specs.Sending.{signed_from, to_leader, vote_for};

use crate::fields::Proposal;
use crate::views::{leader_of, round_of};
use hs_tree::signing::{node_statement, round_statement, start_statement, vote_statement};
use hs_tree::wire::PREPARE;
use hs_tree::{Body, Certificate, Message, Poll, Protocol};
use iss_keys::Keys;
use iss_request::{Bytes, NoMemory, Seq};
use iss_sb::{Params, To, sign};
use std::alloc::Global;

/// The recipient of a message: all replicas, or the leader of a round.
#[derive(Clone, Copy, Debug)]
pub enum Recipient {
    All,
    Leader(u16),
}

/// The body of a message, with its recipient and the statement that its sender signs.
#[derive(Drop)]
pub struct Draft {
    pub to: Recipient,
    pub body: Body,
    pub statement: Bytes,
}

// The recipient as a replica's number.
fn to_nodes(p: &Params, to: Recipient) -> To
    requires some { 1 ≤ p.now.setup.n }
    requires few { p.now.setup.n ≤ 255 }
    ensures to { result ≡ to_nodes p.now to }
    ensures node { IsToNode p.now.setup.n result }
{
    match to {
        Recipient::All => To::All,
        Recipient::Leader(round) => To::One(leader_of(p, round)),
    }
}

/// A vote, to the leader of the view's round. The only error is out of memory.
pub fn vote_draft(
    alloc: Global,
    protocol: Protocol,
    p: &Params,
    poll: Poll,
) -> Result<Draft, NoMemory>
    ensures { IfOk result (λ d. AreDrafts (form_of protocol) p.now (Some d)
        (vote_for p.now poll.phase poll.view poll.digest)) }
{
    let tag = protocol.tag();
    let out = start_statement(alloc, p, tag)?;
    let statement = vote_statement(out, &poll)?;
    let round = round_of(poll.view);
    Ok(Draft {
        to: Recipient::Leader(round),
        body: Body::Vote {
            phase: poll.phase,
            view: poll.view,
            digest: poll.digest,
        },
        statement,
    })
}

/// A proposal, to all. `digest` is the digest of its node. The only error is out of memory.
pub fn proposal_draft(
    alloc: Global,
    protocol: Protocol,
    p: &Params,
    proposal: Proposal,
    digest: &[u8; 32],
) -> Result<Draft, NoMemory>
    ensures { IfOk result (λ d.
        digest.now ≡ node_digest (form_of protocol) p.now proposal.view proposal.what proposal.just →
        AreDrafts (form_of protocol) p.now (Some d)
        ((To_all, Prepare proposal.view proposal.what proposal.just) ∷ [])) }
{
    let tag = protocol.tag();
    let view = proposal.view;
    let out = start_statement(alloc, p, tag)?;
    let statement = node_statement(out, PREPARE, view, digest)?;
    let what = proposal.what;
    let just = proposal.just;
    Ok(Draft {
        to: Recipient::All,
        body: Body::Prepare { view, what, just },
        statement,
    })
}

/// A NewView with the highest certificate, to the leader of the round. The only error is out of memory.
pub fn round_draft(
    alloc: Global,
    protocol: Protocol,
    p: &Params,
    round: u16,
    high: Certificate,
) -> Result<Draft, NoMemory>
    ensures { IfOk result (λ d. AreDrafts (form_of protocol) p.now (Some d)
        ((to_leader p.now round, NewView round high) ∷ [])) }
{
    let tag = protocol.tag();
    let out = start_statement(alloc, p, tag)?;
    let statement = round_statement(out, round, high.view())?;
    Ok(Draft {
        to: Recipient::Leader(round),
        body: Body::NewView { round, high },
        statement,
    })
}

/// Signs the message, if there is one, with the next leaf, and appends it. The only error is out of memory.
pub fn send(
    p: &Params,
    draft: Option<Draft>,
    keys: &mut Keys,
    sends: &mut Seq<(To, Message)>,
) -> Result<(), NoMemory>
    requires some { 1 ≤ p.now.setup.n }
    requires few { p.now.setup.n ≤ 255 }
    requires left { 0 < left_of keys.old }
    ensures sends { OnOk result ((form : Form) (me : ℕ) (xs : List (To × Body)) →
        AreKeysOf me p.now.setup.keys keys.old → AreDrafts form p.now draft xs →
        sends.new ≡ sends.old ++ signed_from form p.now me keys.old.used xs) }
    ensures used { OnOk result (keys.new ≡ record keys.old { used = keys.old.used + count_of draft }) }
    ensures addressed { OnOk result (AreToNodes p.now.setup.n sends.old → AreToNodes p.now.setup.n sends.new) }
{
    let Some(draft) = draft else {
        return Ok(());
    };
    let to = to_nodes(p, draft.to);
    let sig = sign(&draft.statement, keys)?;
    let body = draft.body;
    sends.push((to, Message { body, sig }))
}
