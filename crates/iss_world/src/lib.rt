//! The simulated world of a cluster: its cores, the network between them, and the effect of each event.
#![tactic(auto)]

pub mod claims;
pub mod cores;
pub mod ends;
pub mod members;
mod posting;
mod requests;
mod shown;
pub mod simulation;
mod stepping;
pub mod strings;
mod texts;
pub mod world;

pub use world::{EventResult, World};
