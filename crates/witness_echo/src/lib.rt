//! A witness that the premises of the composition theorem can all be met at once: a cluster over echo in which nodes
//! signed and one node is faulty.
#![tactic(auto)]

pub mod laws;
pub mod setups;

pub use laws::echo_in_a_cluster;
pub use setups::four_nodes;
