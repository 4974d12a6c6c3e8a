//! Links between nodes: a packet is sent as frames, which may be lost, repeated and reordered, and is reassembled.
#![tactic(auto)]

mod errors;
mod failing;
mod frames;
mod laws;
mod links;
mod memory;
mod reassembly;
mod udp;

pub use errors::{EndError, Failed, NoMemory};
pub use failing::FailingLinks;
pub use frames::{Frame, frames_are_exact, read_frame, write_frame};
pub use laws::packets_are_joined;
pub use links::{Arrival, Links};
pub use memory::MemoryLinks;
pub use reassembly::Reassembly;
pub use udp::UdpLinks;
