//! The rules of a cluster as definitions over lists: the log that follows from what a node took, the judge, votes, and
//! packet formats (ISS, whole protocol). Also the events of a node, the reasons of drops and refusals, and evidence.
#![tactic(auto)]

pub mod events;
pub mod theorems;

pub use events::{NodeEvent, Refusal, Why};
pub use theorems::requests_are_signed;
