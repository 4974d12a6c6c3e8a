//! Whether the epochs of an export are certified.
ghost use Rattle.std.specs.Prelude.{◌≡◌, ◌↔◌, ◌++◌, [], List, true, length, IfOk, IfErr, IsTrue, OnOk};
ghost use Rattle.iss_checkpoint.specs.Votes.{is_cert, voters_of};
ghost use Rattle.iss_log.specs.Chains.{end_from, end_of};
ghost use Rattle.iss_audit.specs.Exports.{EachEpoch, IsCertified, log_of, stated_in};
ghost use Rattle.iss_audit.specs.Refusals.{AreRefused, IsEpochRefused};
ghost use Rattle.iss_audit.specs.declared.exports.CertifiedEpoch.{CertifiedEpoch};

use crate::errors::{AuditError, EpochFault};
use crate::exports::CertifiedEpoch;
use iss_checkpoint::{Cert, check};
use iss_keys::Directory;
use iss_log::{End, link};
use iss_request::{Epoch, NoMemory, Seq, Setup, Value};
use std::alloc::Global;

// What a certificate states of the log.
fn stated_in(cert: &Cert) -> End
    ensures { result ≡ stated_in cert.now }
{
    End {
        chain: cert.chain,
        requests: cert.requests,
    }
}

// Whether both are of the same log.
fn is_same(a: &End, b: &End) -> bool
    ensures { IsTrue result ↔ (a.now ≡ b.now) }
{
    a.requests == b.requests && a.chain == b.chain
}

// The chain digest and number of requests of a log followed by these values.
fn end_from(
    alloc: Global,
    directory: &Directory,
    version: u8,
    start: End,
    values: &[Value],
) -> Result<End, NoMemory>
    ensures { IfOk result (λ end. end ≡ end_from version start values.now) }
{
    let mut end = start;
    for value in values {
        let mut hashed = Seq::new(alloc);
        end = link(alloc, directory, version, &end, value, &mut hashed)?;
    }
    Ok(end)
}

// What identifies the log at the end of an epoch, if the epoch is certified. `start` identifies the log before it.
// rule: Audit: A bad epoch is the first one, and a bad certificate comes before a wrong chain
fn check_epoch(
    alloc: Global,
    setup: &Setup,
    directory: &Directory,
    number: u64,
    start: End,
    epoch: &CertifiedEpoch,
) -> Result<End, AuditError>
    ensures end { IfOk result (λ end. (before : List CertifiedEpoch)
        → start ≡ end_of setup.now.version (log_of before)
        → end ≡ end_of setup.now.version (log_of before ++ epoch.now.values)) }
    ensures stated { IfOk result (λ end. stated_in epoch.now.cert ≡ end) }
    ensures valid { OnOk result (is_cert (voters_of setup.now directory.now) epoch.now.cert ≡ true) }
    ensures bad { IfErr result (λ e. (before : List CertifiedEpoch)
        → start ≡ end_of setup.now.version (log_of before) → number ≡ length before
        → IsEpochRefused setup.now (voters_of setup.now directory.now) before epoch.now e) }
{
    if !check(setup, directory, &epoch.cert) {
        return Err(AuditError::BadEpoch {
            epoch: Epoch(number),
            why: EpochFault::BadCert,
        });
    }
    let end = end_from(
        alloc,
        directory,
        setup.version,
        start,
        epoch.values.as_slice(),
    )?;
    if !is_same(&stated_in(&epoch.cert), &end) {
        return Err(AuditError::BadEpoch {
            epoch: Epoch(number),
            why: EpochFault::WrongChain,
        });
    }
    Ok(end)
}

/// Whether each epoch is certified under these keys. The certificates must be of epochs 0, 1, and so on.
///
/// # Errors
///
/// `BadEpoch` for the first epoch that is not certified, with the first reason. `NoMemory` if out of memory, also if
/// the requests pass 2^64 - 1.
// rule: Audit: A log is certified if each epoch's certificate is valid and states the chain and count so far
pub fn check_epochs(
    alloc: Global,
    setup: &Setup,
    directory: &Directory,
    epochs: &[CertifiedEpoch],
) -> Result<(), AuditError>
    requires { EachEpoch (λ before x. x.cert.epoch.0 ≡ length before) [] epochs.now }
    ensures ok { OnOk result
        (EachEpoch (IsCertified setup.now (voters_of setup.now directory.now)) [] epochs.now) }
    ensures bad { IfErr result (AreRefused setup.now (voters_of setup.now directory.now) epochs.now) }
{
    let mut end = End {
        chain: [0; 32],
        requests: 0,
    };
    for (number, epoch) in epochs.iter().enumerate() {
        end = check_epoch(alloc, setup, directory, number as u64, end, epoch)?;
    }
    Ok(())
}
