//! The messages and log entries of Raft, in bytes (Ongaro and Ousterhout, "In Search of an Understandable Consensus
//! Algorithm").
#![tactic(auto)]

pub mod entries;
pub mod laws;
pub mod messages;
pub mod wire;

pub use entries::Entry;
pub use laws::messages_are_exact;
pub use messages::Message;
pub use wire::{read, write};
