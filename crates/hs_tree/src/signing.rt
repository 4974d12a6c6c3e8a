//! The strings that are hashed for a node, and the statements that are signed.
ghost use Rattle.std.specs.Prelude.{◌≡◌, [], ◌++◌, IfOk, OnOk};
ghost use Rattle.iss_sb.specs.Evidence.{one_or_none};
ghost use Rattle.iss_sb.specs.Statements.{claim, four_bytes, statement_head, two_bytes};
ghost use Rattle.iss_request.specs.Fields.{and_bytes};
ghost use Rattle.iss_sb.specs.declared.effects.Params.{Params};
ghost use Rattle.hs_tree.specs.Hashed.{IsHashed, start_of};
ghost use Rattle.hs_tree.specs.Statements.{certificate_claims, statement, vote_claims, vote_statement};
ghost use Rattle.hs_tree.specs.Tree.{Form, kind_of, string_in, strings_of, value_digest, value_of};

use crate::certificates::Certificate;
use crate::messages::Poll;
use crate::wire::{NEW_VIEW, VOTE};
use iss_request::{Bytes, NoMemory, Seq, Value, Writer, batch_string, value_string};
use iss_sb::{Claim, Content, Params, Signed, put_head};
use sha2::{Digest, Sha256};
use std::alloc::Global;

// The first byte of a node's hashed string.
pub(crate) const NODE: u8 = 0x41;

// The same in chained HotStuff, where the view follows.
pub(crate) const VIEWED_NODE: u8 = 0x44;

// ---- what is hashed

/// The string of the content's value; a mark has none. The only error is out of memory.
pub fn held_string(alloc: Global, version: u8, what: &Content) -> Result<Option<Bytes>, NoMemory>
    ensures { IfOk result (λ s. one_or_none s ≡ strings_of version (value_of what.now)) }
{
    match what {
        Content::Nil => Ok(Some(value_string(alloc, version, &Value::Nil)?)),
        Content::Holds(batch) => Ok(Some(batch_string(alloc, version, batch)?)),
        Content::Mark => Ok(None),
    }
}

/// The digest of the content's value, by its string; zeros for a mark. The directory caches it, since each replica asks
/// for it more than once.
pub fn held_digest(p: &Params, what: &Content, string: &Option<Bytes>) -> [u8; 32]
    requires { one_or_none string.now ≡ strings_of p.now.setup.version (value_of what.now) }
    ensures { result ≡ value_digest p.now.setup.version (value_of what.now) }
{
    match string {
        Some(bytes) => p.directory.directory().digest(bytes.as_slice()),
        None => [0; 32],
    }
}

// The number of the content's kind in a node's string.
pub(crate) fn kind_of(what: &Content) -> u8
    ensures { result ≡ kind_of what.now }
{
    match what {
        Content::Nil => 0,
        Content::Holds(_) => 1,
        Content::Mark => 2,
    }
}

// Appends the start of a node's string: its number, in chained HotStuff with the view.
// rule: Chained HotStuff: A node's digest covers its view
fn put_start(view: Option<u32>, out: &mut Writer) -> Result<(), NoMemory>
    ensures { OnOk result (out.new ≡ and_bytes out.old (start_of view)) }
{
    match view {
        None => out.put_u8(NODE),
        Some(view) => {
            out.put_u8(VIEWED_NODE)?;
            out.put_u32(view)
        }
    }
}

/// The string of the node with this parent and content, by the digest of its value; in chained HotStuff, of the one
/// with this view. The only error is out of memory.
// rule: HotStuff: A node's digest covers its parent, its kind and the digest of its value
pub fn node_string(
    mut out: Writer,
    view: Option<u32>,
    parent: &[u8; 32],
    what: &Content,
    held: &[u8; 32],
) -> Result<Bytes, NoMemory>
    requires { held.now ≡ value_digest out.version (value_of what.now) }
    ensures { IfOk result (λ s. out.bytes ≡ [] → s ≡ string_in out.version view parent.now what.now) }
{
    put_start(view, &mut out)?;
    out.put_bytes(parent)?;
    out.put_u8(kind_of(what))?;
    out.put_bytes(held)?;
    Ok(out.into_bytes())
}

/// The strings that were hashed for a node, the value's before its own, and the node's digest.
#[derive(Drop)]
pub struct Hashed {
    pub strings: Seq<Bytes>,
    pub digest: [u8; 32],
}

/// Hashes the node with this parent and content; in chained HotStuff, the one with this view. The only error is out of
/// memory.
pub fn hash_node(
    alloc: Global,
    p: &Params,
    view: Option<u32>,
    parent: &[u8; 32],
    what: &Content,
) -> Result<Hashed, NoMemory>
    ensures { IfOk result (λ h. IsHashed p.now.setup.version view parent.now what.now h) }
{
    let version = p.setup.version;
    let value = held_string(alloc, version, what)?;
    let held = held_digest(p, what, &value);
    let out = Writer::new(alloc, version);
    let node = node_string(out, view, parent, what, &held)?;
    let digest = Sha256::digest(node.as_slice());
    let mut strings = Seq::new(alloc);
    put_string(value, &mut strings)?;
    strings.push(node)?;
    Ok(Hashed { strings, digest })
}

// Appends the string, if there is one.
fn put_string(string: Option<Bytes>, all: &mut Seq<Bytes>) -> Result<(), NoMemory>
    ensures { OnOk result (all.new ≡ all.old ++ one_or_none string) }
{
    match string {
        Some(string) => all.push(string),
        None => Ok(()),
    }
}

// ---- what is signed, for the module with this tag

/// The start of a statement: its instance, and the module's tag. The only error is out of memory.
pub fn start_statement(alloc: Global, p: &Params, module_tag: u8) -> Result<Writer, NoMemory>
    ensures { IfOk result (λ out. (form : Form) → form.tag ≡ module_tag → out.bytes ≡ statement_head p.now form.tag) }
{
    let mut out = Writer::new(alloc, p.setup.version);
    put_head(p, module_tag, &mut out)?;
    Ok(out)
}

/// The statement of a vote, after its start. The only error is out of memory.
pub fn vote_statement(mut out: Writer, poll: &Poll) -> Result<Bytes, NoMemory>
    ensures { IfOk result (λ s. (form : Form) (p : Params) → out.bytes ≡ statement_head p form.tag →
        s ≡ vote_statement form p poll.now.phase poll.now.view poll.now.digest) }
{
    out.put_u8(VOTE)?;
    out.put_u8(poll.phase)?;
    out.put_u32(poll.view)?;
    let digest = &poll.digest;
    out.put_bytes(digest)?;
    Ok(out.into_bytes())
}

/// The statement of a proposal, or of a message that broadcasts a certificate: its number, view and node, after its
/// start. The only error is out of memory.
pub fn node_statement(
    mut out: Writer,
    kind: u8,
    view: u32,
    digest: &[u8; 32],
) -> Result<Bytes, NoMemory>
    ensures { IfOk result (λ s. (form : Form) (p : Params) → out.bytes ≡ statement_head p form.tag →
        s ≡ statement form p kind (four_bytes view ++ digest.now)) }
{
    out.put_u8(kind)?;
    out.put_u32(view)?;
    out.put_bytes(digest)?;
    Ok(out.into_bytes())
}

/// The statement of a NewView: its round, and the view of its certificate, after its start. The only error is out of
/// memory.
pub fn round_statement(mut out: Writer, round: u16, view: u32) -> Result<Bytes, NoMemory>
    ensures { IfOk result (λ s. (form : Form) (p : Params) → out.bytes ≡ statement_head p form.tag →
        s ≡ statement form p 1 (two_bytes round ++ four_bytes view)) }
{
    out.put_u8(NEW_VIEW)?;
    out.put_u16(round)?;
    out.put_u32(view)?;
    Ok(out.into_bytes())
}

/// Appends the claims of a certificate, one for each of its votes. The only error is out of memory.
pub fn put_certificate_claims(
    alloc: Global,
    p: &Params,
    module_tag: u8,
    certificate: &Certificate,
    all: &mut Seq<Claim>,
) -> Result<(), NoMemory>
    ensures { OnOk result ((form : Form) → form.tag ≡ module_tag →
        all.new ≡ all.old ++ certificate_claims form p.now certificate.now) }
{
    match certificate {
        Certificate::Root => Ok(()),
        Certificate::Votes {
            view,
            phase,
            digest,
            votes,
        } => {
            let poll = Poll {
                phase: *phase,
                view: *view,
                digest: *digest,
            };
            let out = start_statement(alloc, p, module_tag)?;
            let statement = vote_statement(out, &poll)?;
            put_vote_claims(&statement, votes.as_slice(), all)
        }
    }
}

fn put_vote_claims(
    statement: &Bytes,
    votes: &[Signed],
    all: &mut Seq<Claim>,
) -> Result<(), NoMemory>
    ensures { OnOk result (all.new ≡ all.old ++ vote_claims statement.now votes.now) }
{
    for vote in votes {
        let claim = claim_of(statement, vote)?;
        all.push(claim)?;
    }
    Ok(())
}

fn claim_of(statement: &Bytes, vote: &Signed) -> Result<Claim, NoMemory>
    ensures { IfOk result (λ c. c ≡ claim vote.now.by.0 statement.now vote.now.sig) }
{
    Ok(Claim {
        by: vote.by,
        statement: statement.copy()?,
        sig: vote.sig.copy()?,
    })
}
