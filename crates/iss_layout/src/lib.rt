//! The division of an epoch: its leaders, their segments of slots, and their buckets of requests (ISS, "State Machine
//! Replication Scalability Made Simple": interleaved segments, and buckets that rotate so that no leader can censor the
//! same requests for ever).
#![tactic(auto)]

mod candidates;
pub mod laws;
pub mod layout;
pub mod standing;

pub use layout::Layout;
pub use standing::Standing;
