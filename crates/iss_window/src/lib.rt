//! Client windows, the record of ordered requests, and sets of request identities (ISS, "State Machine Replication
//! Scalability Made Simple": watermarks bound the request numbers that a client may use in an epoch). What windows take
//! does not grow with the log (`Windows`).
#![tactic(auto)]

pub mod ids;
pub mod laws;
mod spans;
pub mod windows;

pub use ids::Ids;
pub use windows::{Place, Windows};
