//! The messages of state transfer.
use iss_checkpoint::Cert;
use iss_request::{Epoch, Seq, Value};

/// A lagging node asks for the values of an epoch.
#[derive(Clone, Copy, Debug, PartialEq, Eq)]
pub struct Ask {
    pub epoch: Epoch,
}

/// The values of an epoch in the order of their slots, with the certificate of the log at its end.
#[derive(Drop)]
pub struct Piece {
    pub epoch: Epoch,
    pub values: Seq<Value>,
    pub cert: Cert,
}
