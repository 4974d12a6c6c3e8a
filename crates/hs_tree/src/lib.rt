//! The data of HotStuff: the tree of nodes, quorum certificates, and messages with their bytes (Yin, Malkhi, Reiter,
//! Golan Gueta and Abraham, "HotStuff: BFT Consensus with Linearity and Responsiveness").
#![tactic(auto)]

pub mod certificates;
pub mod claiming;
pub mod hashing;
pub mod laws;
pub mod messages;
pub mod protocols;
pub mod signing;
pub mod tree;
pub mod wire;

pub use certificates::Certificate;
pub use claiming::claims;
pub use laws::{certificates_count_nodes, messages_are_exact, one_digest_one_branch};
pub use messages::{Body, Message, Poll};
pub use protocols::Protocol;
pub use tree::Tree;
pub use wire::{read, write};
