//! An instance of an ordering module at a node. Each batch is checked before it is accepted (ISS, "State Machine
//! Replication Scalability Made Simple"). A follower accepts only batches from the leader's own buckets, with valid
//! requests. None of these may have been accepted or delivered before.
#![tactic(auto)]

pub mod judge;
pub mod segment;
pub mod signatures;

pub use segment::{Segment, StepRefusal};
pub use signatures::{is_signed, sign_request};
