//! Tests of a node over links and disks in memory.
#![tactic(auto)]

pub mod configs;
#[cfg(test)]
mod parts;
#[cfg(test)]
mod snapshots;
#[cfg(test)]
mod tests;

pub use configs::{pbft_config, relay_config};
