//! The contents of an export.
use iss_checkpoint::Cert;
use iss_request::{Seq, Setup, Value};

/// The values of an epoch in the order of their slots, with the certificate of the log at its end.
#[derive(Drop)]
pub struct CertifiedEpoch {
    pub values: Seq<Value>,
    pub cert: Cert,
}

/// The log of a cluster, epoch by epoch from 0.
#[derive(Drop)]
pub struct Export {
    pub setup: Setup,
    pub epochs: Seq<CertifiedEpoch>,
}
