//! The terms that all crates share: node numbers, slots, epochs, requests, batches, values, and the set-up of a cluster
//! (ISS, "State Machine Replication Scalability Made Simple").
#![tactic(auto)]

pub mod bytes;
pub mod errors;
pub mod fields;
pub mod ids;
pub mod requests;
pub mod seqs;
pub mod setups;
pub mod sums;
pub mod values;
pub mod versions;

pub use bytes::Bytes;
pub use errors::{DecodeError, NoMemory};
pub use fields::{Fields, Writer};
pub use ids::{Epoch, NodeId, ReqId, Slot};
pub use requests::{Batch, Request, Value};
pub use seqs::Seq;
pub use setups::{Kind, Nodes, Policy, Setup, nodes_of_kind, quorum};
pub use sums::sum;
pub use values::{
    batch_digest, batch_string, decode_value, digest_of, encode_value, formats_are_exact,
    has_shape, is_spellable, read_batch_value, read_request, read_signature, read_value,
    value_string, write_batch_value, write_request, write_value,
};
pub use versions::{is_second, requests_most, version_byte};
