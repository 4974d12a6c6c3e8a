//! The relay: an ordering module that trusts the sender. The leader sends each batch that is cast to it to all nodes,
//! and a node delivers the leader's first batch for a slot. It tolerates no fault.
#![tactic(auto)]

pub mod relay;
pub mod say;

pub use relay::Relay;
pub use say::Say;
