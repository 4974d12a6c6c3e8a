//! The requests that wait at a node to be proposed (ISS, "State Machine Replication Scalability Made Simple": bucket
//! queues, of which a leader takes from its own buckets).
#![tactic(auto)]

pub mod pending;
mod queues;
mod shelf;

pub use pending::{Added, Pending};
