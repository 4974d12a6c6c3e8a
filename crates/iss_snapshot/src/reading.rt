//! Snapshots from bytes.
ghost use Rattle.std.specs.Prelude.{◌≡◌, ◌≤◌, ◌-◌, ℕ, [], IfOk, Err, List};
ghost use Rattle.std.specs.Int.{w16, w32};
ghost use Rattle.iss_request.specs.declared.requests.Value.{Value};
ghost use Rattle.iss_request.specs.Fields.{Bad, Good, IsRead, IsUnreadable};
ghost use Rattle.iss_request.specs.Formats.{parse_request, parse_value};
ghost use Rattle.iss_request.specs.Parsing.{all_of, times};
ghost use Rattle.iss_snapshot.specs.Snapshots.{parse_body, parse_cert_entry, parse_counted, parse_kind, parse_packet_entry};
ghost use Rattle.iss_snapshot.specs.Snapshots.{equal_epochs, parse_snapshot, parse_span, parse_to, parse_vote_entry};

use crate::snapshots::{KIND, Snapshot, Span};
use iss_checkpoint::{Cert, Vote, read_cert, read_vote};
use iss_request::{
    Bytes, DecodeError, Epoch, Fields, NodeId, Request, Seq, Value, read_request, read_value,
};
use std::alloc::Global;

fn read_kind(f: &mut Fields) -> Result<u8, DecodeError>
    ensures ok { IfOk result (λ k. IsRead parse_kind f.old f.new k) }
    ensures bad { (at : ℕ) → result ≡ Err (DecodeError.BadField at) → IsUnreadable parse_kind f.old at }
{
    let no_snapshot = f.bad_field();
    let kind = f.read_u8()?;
    if kind != KIND {
        return Err(no_snapshot);
    }
    Ok(kind)
}

fn read_to(from: u64, f: &mut Fields) -> Result<u64, DecodeError>
    ensures ok { IfOk result (λ n. IsRead (parse_to from) f.old f.new n) }
    ensures bad { (at : ℕ) → result ≡ Err (DecodeError.BadField at) → IsUnreadable (parse_to from) f.old at }
{
    let no_epoch = f.bad_field();
    let to = f.read_u64()?;
    if to <= from {
        return Err(no_epoch);
    }
    Ok(to)
}

fn read_span(f: &mut Fields) -> Result<Span, DecodeError>
    ensures ok { IfOk result (λ s. IsRead parse_span f.old f.new s) }
    ensures bad { (at : ℕ) → result ≡ Err (DecodeError.BadField at) → IsUnreadable parse_span f.old at }
{
    let _kind = read_kind(f)?;
    let from = f.read_u64()?;
    let to = read_to(from, f)?;
    Ok(Span {
        from: Epoch(from),
        to: Epoch(to),
    })
}

// How many epochs a snapshot goes on by.
fn length_of(span: Span) -> u64
    ensures { result ≡ span.to.0 - span.from.0 }
{
    span.to.0.saturating_sub(span.from.0)
}

// The values of one epoch.
fn read_values(alloc: Global, count: u64, f: &mut Fields) -> Result<Seq<Value>, DecodeError>
    ensures ok { IfOk result (λ vs. IsRead (times count (parse_value f.old.version)) f.old f.new vs) }
    ensures bad { (at : ℕ) → result ≡ Err (DecodeError.BadField at) →
        IsUnreadable (times count (parse_value f.old.version)) f.old at }
{
    let mut values = Seq::new(alloc);
    for _ in 0..count {
        let value = read_value(alloc, f)?;
        values.push(value)?;
    }
    Ok(values)
}

// The values of `count` epochs, each of `slots` slots.
fn read_epochs(
    alloc: Global,
    count: u64,
    slots: u64,
    f: &mut Fields,
) -> Result<Seq<Seq<Value>>, DecodeError>
    ensures ok { IfOk result (λ vs. IsRead (times count (times slots (parse_value f.old.version))) f.old f.new vs) }
    ensures bad { (at : ℕ) → result ≡ Err (DecodeError.BadField at) →
        IsUnreadable (times count (times slots (parse_value f.old.version))) f.old at }
{
    let mut epochs = Seq::new(alloc);
    for _ in 0..count {
        let values = read_values(alloc, slots, f)?;
        epochs.push(values)?;
    }
    Ok(epochs)
}

fn read_requests(alloc: Global, count: u32, f: &mut Fields) -> Result<Seq<Request>, DecodeError>
    ensures ok { IfOk result (λ xs. IsRead (times count parse_request) f.old f.new xs) }
    ensures bad { (at : ℕ) → result ≡ Err (DecodeError.BadField at) →
        IsUnreadable (times count parse_request) f.old at }
{
    let mut requests = Seq::new(alloc);
    for _ in 0..count {
        let request = read_request(alloc, f)?;
        requests.push(request)?;
    }
    Ok(requests)
}

fn read_waiting(alloc: Global, f: &mut Fields) -> Result<Seq<Request>, DecodeError>
    ensures ok { IfOk result (λ xs. IsRead (parse_counted w32 parse_request) f.old f.new xs) }
    ensures bad { (at : ℕ) → result ≡ Err (DecodeError.BadField at) →
        IsUnreadable (parse_counted w32 parse_request) f.old at }
{
    let count = f.read_u32()?;
    let requests = read_requests(alloc, count, f)?;
    Ok(requests)
}

fn read_cert_entry(alloc: Global, f: &mut Fields) -> Result<Cert, DecodeError>
    ensures ok { IfOk result (λ c. IsRead parse_cert_entry f.old f.new c) }
    ensures bad { (at : ℕ) → result ≡ Err (DecodeError.BadField at) → IsUnreadable parse_cert_entry f.old at }
{
    let epoch = f.read_u64()?;
    let cert = read_cert(alloc, Epoch(epoch), f)?;
    Ok(cert)
}

fn read_each_cert(alloc: Global, count: u32, f: &mut Fields) -> Result<Seq<Cert>, DecodeError>
    ensures ok { IfOk result (λ xs. IsRead (times count parse_cert_entry) f.old f.new xs) }
    ensures bad { (at : ℕ) → result ≡ Err (DecodeError.BadField at) →
        IsUnreadable (times count parse_cert_entry) f.old at }
{
    let mut certs = Seq::new(alloc);
    for _ in 0..count {
        let cert = read_cert_entry(alloc, f)?;
        certs.push(cert)?;
    }
    Ok(certs)
}

fn read_certs(alloc: Global, f: &mut Fields) -> Result<Seq<Cert>, DecodeError>
    ensures ok { IfOk result (λ xs. IsRead (parse_counted w32 parse_cert_entry) f.old f.new xs) }
    ensures bad { (at : ℕ) → result ≡ Err (DecodeError.BadField at) →
        IsUnreadable (parse_counted w32 parse_cert_entry) f.old at }
{
    let count = f.read_u32()?;
    let certs = read_each_cert(alloc, count, f)?;
    Ok(certs)
}

fn read_vote_entry(alloc: Global, f: &mut Fields) -> Result<Vote, DecodeError>
    ensures ok { IfOk result (λ v. IsRead parse_vote_entry f.old f.new v) }
    ensures bad { (at : ℕ) → result ≡ Err (DecodeError.BadField at) → IsUnreadable parse_vote_entry f.old at }
{
    let epoch = f.read_u64()?;
    let by = f.read_u8()?;
    let vote = read_vote(alloc, NodeId(by), Epoch(epoch), f)?;
    Ok(vote)
}

fn read_each_vote(alloc: Global, count: u32, f: &mut Fields) -> Result<Seq<Vote>, DecodeError>
    ensures ok { IfOk result (λ xs. IsRead (times count parse_vote_entry) f.old f.new xs) }
    ensures bad { (at : ℕ) → result ≡ Err (DecodeError.BadField at) →
        IsUnreadable (times count parse_vote_entry) f.old at }
{
    let mut votes = Seq::new(alloc);
    for _ in 0..count {
        let vote = read_vote_entry(alloc, f)?;
        votes.push(vote)?;
    }
    Ok(votes)
}

fn read_votes(alloc: Global, f: &mut Fields) -> Result<Seq<Vote>, DecodeError>
    ensures ok { IfOk result (λ xs. IsRead (parse_counted w32 parse_vote_entry) f.old f.new xs) }
    ensures bad { (at : ℕ) → result ≡ Err (DecodeError.BadField at) →
        IsUnreadable (parse_counted w32 parse_vote_entry) f.old at }
{
    let count = f.read_u32()?;
    let votes = read_each_vote(alloc, count, f)?;
    Ok(votes)
}

fn read_packet(alloc: Global, f: &mut Fields) -> Result<Bytes, DecodeError>
    ensures ok { IfOk result (λ b. IsRead parse_packet_entry f.old f.new b) }
    ensures bad { (at : ℕ) → result ≡ Err (DecodeError.BadField at) → IsUnreadable parse_packet_entry f.old at }
{
    let size = f.read_u32()?;
    let first = f.at();
    let _lent = f.read_bytes(size as usize)?;
    let packet = f.since(alloc, first)?;
    Ok(packet)
}

fn read_each_packet(alloc: Global, count: u16, f: &mut Fields) -> Result<Seq<Bytes>, DecodeError>
    ensures ok { IfOk result (λ xs. IsRead (times count parse_packet_entry) f.old f.new xs) }
    ensures bad { (at : ℕ) → result ≡ Err (DecodeError.BadField at) →
        IsUnreadable (times count parse_packet_entry) f.old at }
{
    let mut packets = Seq::new(alloc);
    for _ in 0..count {
        let packet = read_packet(alloc, f)?;
        packets.push(packet)?;
    }
    Ok(packets)
}

fn read_early(alloc: Global, f: &mut Fields) -> Result<Seq<Bytes>, DecodeError>
    ensures ok { IfOk result (λ xs. IsRead (parse_counted w16 parse_packet_entry) f.old f.new xs) }
    ensures bad { (at : ℕ) → result ≡ Err (DecodeError.BadField at) →
        IsUnreadable (parse_counted w16 parse_packet_entry) f.old at }
{
    let count = f.read_u16()?;
    let packets = read_each_packet(alloc, count, f)?;
    Ok(packets)
}

fn read_body(
    alloc: Global,
    span: Span,
    epochs: Seq<Seq<Value>>,
    f: &mut Fields,
) -> Result<Snapshot, DecodeError>
    ensures ok { IfOk result (λ s. IsRead (parse_body span epochs) f.old f.new s) }
    ensures bad { (at : ℕ) → result ≡ Err (DecodeError.BadField at) →
        IsUnreadable (parse_body span epochs) f.old at }
{
    let leaf = f.read_u32()?;
    let waiting = read_waiting(alloc, f)?;
    let certs = read_certs(alloc, f)?;
    let votes = read_votes(alloc, f)?;
    let early = read_early(alloc, f)?;
    Ok(Snapshot {
        from: span.from,
        to: span.to,
        epochs,
        leaf,
        waiting,
        certs,
        votes,
        early,
    })
}

// Reads a snapshot, where each epoch has `slots` slots.
fn read_snapshot(alloc: Global, slots: u64, f: &mut Fields) -> Result<Snapshot, DecodeError>
    ensures ok { (log : List Value) →
        IfOk result (λ s. IsRead (parse_snapshot f.old.version (equal_epochs slots) log) f.old f.new s) }
    ensures bad { (log : List Value) (at : ℕ) → result ≡ Err (DecodeError.BadField at) →
        IsUnreadable (parse_snapshot f.old.version (equal_epochs slots) log) f.old at }
{
    let span = read_span(f)?;
    let count = length_of(span);
    let epochs = read_epochs(alloc, count, slots, f)?;
    let snapshot = read_body(alloc, span, epochs, f)?;
    Ok(snapshot)
}

/// Decodes a snapshot, which must take up all of the bytes. Each epoch has `slots` slots. `BadField` gives the offset
/// of the first field that does not fit, or of the first byte after the snapshot.
// rule: Formats: A snapshot has one encoding a version: epochs, leaf, requests, certificates, votes, packets
pub fn decode_snapshot(
    alloc: Global,
    version: u8,
    slots: u64,
    bytes: &[u8],
) -> Result<Snapshot, DecodeError>
    ensures ok { (log : List Value) →
        IfOk result (λ s. parse_snapshot version (equal_epochs slots) log bytes.now ≡ Good s []) }
    ensures bad { (log : List Value) (at : ℕ) → result ≡ Err (DecodeError.BadField at) →
        all_of (parse_snapshot version (equal_epochs slots) log) bytes.now ≡ Bad at }
{
    let mut f = Fields::over(version, bytes);
    let snapshot = read_snapshot(alloc, slots, &mut f)?;
    if !f.is_done() {
        return Err(f.bad_field());
    }
    Ok(snapshot)
}
