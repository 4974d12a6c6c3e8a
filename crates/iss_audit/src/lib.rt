//! Audit of an exported log (ISS: who did not take part can check a log by its checkpoint certificates). An export is a
//! text with the values and the certificate of each epoch. It is certified if each certificate is valid under the
//! header's keys, and states the chain of the values so far.
#![tactic(auto)]

pub mod auditing;
pub mod checking;
mod digits;
pub mod errors;
pub mod exports;
pub mod laws;
mod lines;
mod reading;
pub mod writing;

pub use auditing::check_text;
pub use checking::check_epochs;
pub use errors::{AuditError, EpochFault};
pub use exports::{CertifiedEpoch, Export};
pub use iss_texts::put_last;
pub use laws::{quorums_signed_each_epoch, texts_and_exports};
pub use writing::put_epoch;
