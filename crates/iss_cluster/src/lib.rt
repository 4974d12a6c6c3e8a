//! Running nodes over links: a whole cluster in one process, whose trace can be replayed, or one node with its
//! journal.
#![tactic(auto)]

pub mod clusters;
pub mod errors;
pub mod nodes;
mod running;

pub use clusters::{Traced, cluster};
pub use errors::NodeFailure;
pub use nodes::{RunningNode, node, runs_join, start_node};
