//! Whether the values of a piece are those that its certificate states.
ghost use Rattle.std.specs.Prelude.{◌≡◌, ◌≤◌, ◌<◌, ◌*◌, ◌^◌, ◌++◌, List, length, take, IfOk, OnOk, if◌then◌else◌};
ghost use Rattle.iss_checkpoint.specs.Votes.{is_cert, voters_of};
ghost use Rattle.iss_log.specs.Chains.{IsChainOf, end_from, end_of, strings_from};
ghost use Rattle.iss_request.specs.declared.requests.Value.{Value};
ghost use Rattle.iss_transfer.specs.Adoption.{adoption, has_shape, said_in, same_end};

use crate::pieces::Piece;
use iss_checkpoint::{Cert, check};
use iss_keys::Directory;
use iss_log::{Chains, End, link};
use iss_request::{Bytes, Epoch, NoMemory, Seq, Setup, Value};
use std::alloc::Global;

/// The result of checking a piece.
#[derive(Drop)]
pub enum Adoption {
    /// The piece is adopted. These strings were hashed for its values.
    Adopt { hashed: Seq<Bytes> },
    /// The piece or its certificate is of another epoch, or it does not have one value for each slot.
    WrongEpoch,
    /// The certificate is invalid.
    BadCert,
    /// The values lead to the log `ours`, but the certificate states `theirs`.
    WrongChain { ours: End, theirs: End },
}

/// Whether the piece and its certificate are of this epoch, with one value for each slot.
fn has_shape(setup: &Setup, epoch: Epoch, piece: &Piece) -> bool
    ensures { result ≡ has_shape setup.now epoch.0 piece.now }
{
    piece.epoch.0 == epoch.0
        && piece.cert.epoch.0 == epoch.0
        && piece.values.len() as u64 == setup.epoch
}

// Whether the piece's certificate is valid.
fn is_certified(setup: &Setup, directory: &Directory, piece: &Piece) -> bool
    ensures { result ≡ is_cert (voters_of setup.now directory.now) piece.now.cert }
{
    check(setup, directory, &piece.cert)
}

// What a certificate states of the log.
fn said_in(cert: &Cert) -> End
    ensures { result ≡ said_in cert.now }
{
    End {
        chain: cert.chain,
        requests: cert.requests,
    }
}

// Whether both are of the same log.
fn same_end(ours: &End, theirs: &End) -> bool
    ensures { result ≡ same_end ours.now theirs.now }
{
    ours.requests == theirs.requests && ours.chain == theirs.chain
}

// The chain digest and number of requests of a log followed by these values.
fn end_from(
    alloc: Global,
    directory: &Directory,
    version: u8,
    start: End,
    values: &[Value],
    hashed: &mut Seq<Bytes>,
) -> Result<End, NoMemory>
    ensures end { IfOk result (λ end. end ≡ end_from version start values.now) }
    ensures hashed { OnOk result (hashed.new ≡ hashed.old ++ strings_from version start.chain values.now) }
{
    let mut end = start;
    for value in values {
        end = link(alloc, directory, version, &end, value, hashed)?;
    }
    Ok(end)
}

/// Whether a node may adopt a piece in this epoch, given the chain of its log. `chains` must hold the log before the
/// epoch. The only error is out of memory.
// rule: Transfer: A piece is adopted if it is whole, its certificate good, and its values match the chain
// rule: Transfer: What is adopted has a chain and count that a correct node signed
pub fn adopt(
    alloc: Global,
    setup: &Setup,
    directory: &Directory,
    chains: &Chains,
    epoch: Epoch,
    piece: &Piece,
) -> Result<Adoption, NoMemory>
    requires version { chains.now.version ≡ setup.now.version }
    requires whole { epoch.0 * setup.now.epoch < length chains.now.ends }
    ensures { (log : List Value) → IsChainOf chains.now log
        → IfOk result (λ a. a ≡ adoption setup.now (voters_of setup.now directory.now) log epoch.0 piece.now) }
{
    if !has_shape(setup, epoch, piece) {
        return Ok(Adoption::WrongEpoch);
    }
    if !is_certified(setup, directory, piece) {
        return Ok(Adoption::BadCert);
    }
    // Names the value, so that the proof sees its range.
    let _slots = chains.slots();
    let Some(start) = chains.end_at((epoch.0 * setup.epoch) as usize) else {
        unreachable!();
    };
    let theirs = said_in(&piece.cert);
    let mut hashed = Seq::new(alloc);
    let ours = end_from(
        alloc,
        directory,
        setup.version,
        start,
        piece.values.as_slice(),
        &mut hashed,
    )?;
    if !same_end(&ours, &theirs) {
        return Ok(Adoption::WrongChain { ours, theirs });
    }
    Ok(Adoption::Adopt { hashed })
}
