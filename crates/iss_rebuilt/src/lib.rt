//! Why a replica may recover from snapshots: they lead back to a core with the slim part of the one that wrote them. A
//! theorem, and no code.
#![tactic(auto)]

pub mod laws;

pub use laws::{journals_recover, snapshots_fit, snapshots_rebuild};
