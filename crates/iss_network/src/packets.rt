//! Packets in the network.
use iss_request::Bytes;

/// A packet that was sent from one core to another.
#[derive(Drop)]
pub struct Sent {
    pub from: u32,
    pub to: u32,
    pub bytes: Bytes,
}
