//! One replica of ISS: its ordering instances, log, requests and epochs, and one step of it (ISS, the protocol of a
//! node).
#![tactic(auto)]

pub mod answers;
pub mod casting;
pub mod claims;
pub mod epochs;
pub mod flight;
pub mod growth;
pub mod inputs;
pub mod node;
pub mod packets;
pub mod parcels;
pub mod rebuilding;
pub mod requests;
pub mod resuming;
pub mod saved;
pub mod slims;
pub mod starting;
pub mod state;
pub mod storing;
pub mod transfer;
pub mod votes;

pub use answers::{Accepted, Answer, Outcome};
pub use node::Node;
pub use rebuilding::{RebuildError, Rebuilding};
pub use slims::nodes_stand_for_slims;
