//! The network between cores: which packets were sent, which of them wait for delivery, and which cores are held.
#![tactic(auto)]

pub mod network;
pub mod packets;
mod queues;

pub use network::Network;
pub use packets::Sent;
