//! A large schedule from a number: random requests, proposals, timeouts, deliveries, losses and recoveries, the same on
//! every machine.
#![tactic(auto)]

mod draws;
mod events;
mod generating;

pub use generating::generate;
