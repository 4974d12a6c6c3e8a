//! The loops of running nodes: which events the loop of a cluster makes, and that of one node, by what their links hand
//! out.
#![tactic(auto)]

mod cluster;
mod errors;
mod events;
mod node;
mod node_loop;
mod packet_index;
mod plan;
mod progress;
mod sending;
mod trace;
mod turns;

pub use cluster::TracedCluster;
pub use errors::{LoopError, NodeError};
pub use events::{next_of, take_packet};
pub use node::{JournaledNode, NodeStep, StepError};
pub use node_loop::{NodeProgress, run_node_loop};
pub use packet_index::PacketIndex;
pub use plan::Plan;
pub use progress::Progress;
pub use trace::Trace;
pub use turns::run_loop;
