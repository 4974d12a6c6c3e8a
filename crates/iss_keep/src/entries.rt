//! A node's events as journal entries. The format is the table in `specs/Entries.antt`.
ghost use Rattle.std.specs.Prelude.{◌≡◌, ◌↔◌, ◌∷◌, ℕ, List, Some, IfOk};
ghost use Rattle.iss_rules.specs.declared.events.NodeEvent.{NodeEvent};
ghost use Rattle.iss_keep.specs.Entries.{IsEntryOf, ask_in, event_in, node_in, propose_in, spell_event, timeout_in};

use iss_request::{Bytes, NoMemory, NodeId};
use iss_rules::NodeEvent;
use std::alloc::Global;

pub(crate) const PACKET: u8 = 1;

pub(crate) const PROPOSE: u8 = 2;

pub(crate) const TIMEOUT: u8 = 3;

pub(crate) const ASK: u8 = 4;

// The entry with this kind byte and these bytes after it.
fn entry_with(alloc: Global, kind: u8, bytes: &[u8]) -> Result<Vec<u8>, NoMemory>
    ensures { IfOk result (λ entry. entry.items ≡ kind ∷ bytes.now) }
{
    let mut entry = Vec::new(alloc);
    entry.reserve(bytes.len() + 1)?;
    entry.push(kind)?;
    entry.extend_from_slice(bytes)?;
    Ok(entry)
}

/// Encodes an event as a journal entry. The only error is out of memory.
pub fn encode_entry(alloc: Global, event: &NodeEvent) -> Result<Vec<u8>, NoMemory>
    ensures { IfOk result (λ entry. entry.items ≡ spell_event event.now) }
{
    match event {
        NodeEvent::Packet(bytes) => entry_with(alloc, PACKET, bytes.as_slice()),
        NodeEvent::Propose => entry_with(alloc, PROPOSE, &[]),
        NodeEvent::Timeout(leader) => entry_with(alloc, TIMEOUT, &[leader.0]),
        NodeEvent::AskFrom(peer) => entry_with(alloc, ASK, &[peer.0]),
    }
}

// The rest of a `Propose` entry, which is empty.
fn read_propose(rest: &[u8]) -> Option<NodeEvent>
    ensures { result ≡ propose_in rest.now }
{
    match rest {
        [] => Some(NodeEvent::Propose),
        _ => None,
    }
}

// Reads exactly one byte as the identity of one of `n` nodes.
fn read_node(n: u32, rest: &[u8]) -> Option<NodeId>
    ensures { result ≡ node_in n rest.now }
{
    let [node] = rest else {
        return None;
    };
    if (*node as u32) < n {
        Some(NodeId(*node))
    } else {
        None
    }
}

// The rest of a `Timeout` entry: the leader.
fn read_timeout(n: u32, rest: &[u8]) -> Option<NodeEvent>
    ensures { result ≡ timeout_in (node_in n rest.now) }
{
    match read_node(n, rest) {
        Some(leader) => Some(NodeEvent::Timeout(leader)),
        None => None,
    }
}

// The rest of an `AskFrom` entry: the peer.
fn read_ask(n: u32, rest: &[u8]) -> Option<NodeEvent>
    ensures { result ≡ ask_in (node_in n rest.now) }
{
    match read_node(n, rest) {
        Some(peer) => Some(NodeEvent::AskFrom(peer)),
        None => None,
    }
}

fn read_packet(alloc: Global, rest: &[u8]) -> Result<NodeEvent, NoMemory>
    ensures { IfOk result (λ event. event ≡ NodeEvent.Packet rest.now) }
{
    Ok(NodeEvent::Packet(Bytes::shared(rest.to_vec(alloc)?)?))
}

/// Decodes a journal entry in a cluster of `n` nodes. `None` if it is no event. The only error is out of memory.
// rule: Persistence: An event has one entry, and an entry encodes at most one event
pub fn decode_entry(alloc: Global, n: u32, entry: &[u8]) -> Result<Option<NodeEvent>, NoMemory>
    ensures { IfOk result (λ event. event ≡ event_in n entry.now) }
{
    let [kind, rest @ ..] = entry else {
        return Ok(None);
    };
    if *kind == PACKET {
        let event = read_packet(alloc, rest)?;
        return Ok(Some(event));
    }
    if *kind == PROPOSE {
        return Ok(read_propose(rest));
    }
    if *kind == TIMEOUT {
        return Ok(read_timeout(n, rest));
    }
    if *kind == ASK {
        return Ok(read_ask(n, rest));
    }
    Ok(None)
}

/// Decoding is exact, for any `n`. An entry decodes to an event if and only if the table relates the two. Hence each
/// entry has at most one event, and each event has one entry.
pub fn entries_are_exact()
    ensures { (n : ℕ) (entry : List ℕ) (event : NodeEvent) → (event_in n entry ≡ Some event) ↔ IsEntryOf n entry event }
{}
