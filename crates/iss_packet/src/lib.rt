//! Packets: the messages between cores, and from clients to cores, as bytes.
#![tactic(auto)]

pub mod packets;

pub use packets::{Packet, PacketError, PacketKind, packets_are_exact};
