//! The log of a node: slots are filled in any order, and the log is the longest sequence of filled slots from 0, with
//! numbered requests (ISS, "State Machine Replication Scalability Made Simple": a request's number is the sum of the
//! sizes of earlier batches).
#![tactic(auto)]

pub mod chains;
pub mod log;

pub use chains::{Chains, End, link};
pub use log::{Fill, Joined, Log};
