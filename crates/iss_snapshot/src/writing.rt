//! Snapshots as bytes.
ghost use Rattle.std.specs.Prelude.{◌≡◌, ◌^◌, ◌<◌, ◌++◌, true, length, IfOk, OnOk};
ghost use Rattle.std.specs.List.{flat_map, list_all};
ghost use Rattle.std.specs.Int.{w16, w32, w64, to_be_bytes};
ghost use Rattle.iss_request.specs.Fields.{and_bytes};
ghost use Rattle.iss_request.specs.Formats.{spell_request};
ghost use Rattle.iss_snapshot.specs.Snapshots.{body_bytes, cert_entry, counted, fits, head_bytes, is_short, packet_entry};
ghost use Rattle.iss_snapshot.specs.Snapshots.{snapshot_row, spell_snapshot, spell_values, vote_entry};

use crate::snapshots::{KIND, Snapshot};
use iss_checkpoint::{Cert, Vote, write_cert, write_vote};
use iss_request::{Bytes, NoMemory, Request, Seq, Value, Writer, write_request, write_value};
use std::alloc::Global;

// What is written for a snapshot whose numbers do not fit: no snapshot's kind.
const NO_SNAPSHOT: u8 = 0;

// One more than the largest number of four bytes, and of two bytes.
const MOST: usize = 1 << 32;

const MOST_PACKETS: usize = 1 << 16;

fn are_short(packets: &[Bytes]) -> bool
    ensures { result ≡ list_all is_short packets.now }
{
    match packets {
        [] => true,
        [first, others @ ..] => first.len() < MOST && are_short(others),
    }
}

fn does_fit(s: &Snapshot) -> bool
    ensures { result ≡ fits s.now }
{
    let epochs = s.epochs.len() as u64;
    let goes_on = s.from.0 < s.to.0 && epochs == s.to.0 - s.from.0 && s.waiting.len() < MOST;
    let rows = s.certs.len() < MOST && s.votes.len() < MOST;
    goes_on && (rows && (s.early.len() < MOST_PACKETS && are_short(s.early.as_slice())))
}

fn put_values(values: &[Value], out: &mut Writer) -> Result<(), NoMemory>
    ensures { OnOk result (out.new ≡ and_bytes out.old (spell_values out.old.version values.now)) }
{
    for value in values {
        write_value(value, out)?;
    }
    Ok(())
}

fn put_epochs(epochs: &[Seq<Value>], out: &mut Writer) -> Result<(), NoMemory>
    ensures { OnOk result (out.new ≡ and_bytes out.old (flat_map (spell_values out.old.version) epochs.now)) }
{
    for values in epochs {
        put_values(values.as_slice(), out)?;
    }
    Ok(())
}

fn put_each_request(requests: &[Request], out: &mut Writer) -> Result<(), NoMemory>
    ensures { OnOk result (out.new ≡ and_bytes out.old (flat_map spell_request requests.now)) }
{
    for request in requests {
        write_request(request, out)?;
    }
    Ok(())
}

fn put_requests(requests: &[Request], out: &mut Writer) -> Result<(), NoMemory>
    requires { length requests.now < 2 ^ 32 }
    ensures { OnOk result (out.new ≡ and_bytes out.old (counted w32 spell_request requests.now)) }
{
    out.put_u32(requests.len() as u32)?;
    put_each_request(requests, out)
}

fn put_cert(cert: &Cert, out: &mut Writer) -> Result<(), NoMemory>
    ensures { OnOk result (out.new ≡ and_bytes out.old (cert_entry cert.now)) }
{
    out.put_u64(cert.epoch.0)?;
    write_cert(cert, out)
}

fn put_each_cert(certs: &[Cert], out: &mut Writer) -> Result<(), NoMemory>
    ensures { OnOk result (out.new ≡ and_bytes out.old (flat_map cert_entry certs.now)) }
{
    for cert in certs {
        put_cert(cert, out)?;
    }
    Ok(())
}

fn put_certs(certs: &[Cert], out: &mut Writer) -> Result<(), NoMemory>
    requires { length certs.now < 2 ^ 32 }
    ensures { OnOk result (out.new ≡ and_bytes out.old (counted w32 cert_entry certs.now)) }
{
    out.put_u32(certs.len() as u32)?;
    put_each_cert(certs, out)
}

fn put_vote(vote: &Vote, out: &mut Writer) -> Result<(), NoMemory>
    ensures { OnOk result (out.new ≡ and_bytes out.old (vote_entry vote.now)) }
{
    out.put_u64(vote.epoch.0)?;
    out.put_u8(vote.by.0)?;
    write_vote(vote, out)
}

fn put_each_vote(votes: &[Vote], out: &mut Writer) -> Result<(), NoMemory>
    ensures { OnOk result (out.new ≡ and_bytes out.old (flat_map vote_entry votes.now)) }
{
    for vote in votes {
        put_vote(vote, out)?;
    }
    Ok(())
}

fn put_votes(votes: &[Vote], out: &mut Writer) -> Result<(), NoMemory>
    requires { length votes.now < 2 ^ 32 }
    ensures { OnOk result (out.new ≡ and_bytes out.old (counted w32 vote_entry votes.now)) }
{
    out.put_u32(votes.len() as u32)?;
    put_each_vote(votes, out)
}

fn put_packet(packet: &Bytes, out: &mut Writer) -> Result<(), NoMemory>
    requires { length packet.now < 2 ^ 32 }
    ensures { OnOk result (out.new ≡ and_bytes out.old (packet_entry packet.now)) }
{
    out.put_u32(packet.len() as u32)?;
    out.put_bytes(packet.as_slice())
}

// The packets one after the other.
fn put_each(packets: &[Bytes], out: &mut Writer) -> Result<(), NoMemory>
    requires { list_all is_short packets.now ≡ true }
    ensures { OnOk result (out.new ≡ and_bytes out.old (flat_map packet_entry packets.now)) }
{
    match packets {
        [] => Ok(()),
        [first, others @ ..] => {
            put_packet(first, out)?;
            put_each(others, out)
        }
    }
}

fn put_packets(packets: &[Bytes], out: &mut Writer) -> Result<(), NoMemory>
    requires few { length packets.now < 2 ^ 16 }
    requires short { list_all is_short packets.now ≡ true }
    ensures { OnOk result (out.new ≡ and_bytes out.old (counted w16 packet_entry packets.now)) }
{
    out.put_u16(packets.len() as u16)?;
    put_each(packets, out)
}

fn put_span(s: &Snapshot, out: &mut Writer) -> Result<(), NoMemory>
    ensures { OnOk result (out.new ≡ and_bytes out.old (to_be_bytes w64 s.now.from.0 ++ to_be_bytes w64 s.now.to.0)) }
{
    out.put_u64(s.from.0)?;
    out.put_u64(s.to.0)
}

fn put_head(s: &Snapshot, out: &mut Writer) -> Result<(), NoMemory>
    ensures { OnOk result (out.new ≡ and_bytes out.old (head_bytes s.now)) }
{
    out.put_u8(KIND)?;
    put_span(s, out)
}

fn put_body(s: &Snapshot, out: &mut Writer) -> Result<(), NoMemory>
    requires { fits s.now ≡ true }
    ensures { OnOk result (out.new ≡ and_bytes out.old (body_bytes s.now)) }
{
    out.put_u32(s.leaf)?;
    put_requests(s.waiting.as_slice(), out)?;
    put_certs(s.certs.as_slice(), out)?;
    put_votes(s.votes.as_slice(), out)?;
    put_packets(s.early.as_slice(), out)
}

fn put_row(s: &Snapshot, out: &mut Writer) -> Result<(), NoMemory>
    requires { fits s.now ≡ true }
    ensures { OnOk result (out.new ≡ and_bytes out.old (snapshot_row out.old.version s.now)) }
{
    put_head(s, out)?;
    put_epochs(s.epochs.as_slice(), out)?;
    put_body(s, out)
}

#[tactic(auto, unfolding(crate::specs::Snapshots::spell_snapshot))]
fn write(s: &Snapshot, out: &mut Writer) -> Result<(), NoMemory>
    ensures { OnOk result (out.new ≡ and_bytes out.old (spell_snapshot out.old.version s.now)) }
{
    if does_fit(s) {
        put_row(s, out)
    } else {
        out.put_u8(NO_SNAPSHOT)
    }
}

/// The bytes of a snapshot in a version: its encoding, if it has one. The only error is out of memory.
// rule: Formats: A snapshot has one encoding a version: epochs, leaf, requests, certificates, votes, packets
pub fn encode_snapshot(alloc: Global, version: u8, snapshot: &Snapshot) -> Result<Bytes, NoMemory>
    ensures { IfOk result (λ bytes. bytes ≡ spell_snapshot version snapshot.now) }
{
    let mut out = Writer::new(alloc, version);
    write(snapshot, &mut out)?;
    Ok(out.into_bytes())
}
