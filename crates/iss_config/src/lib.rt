//! The configuration of a cluster, read from TOML (with the crate `toml`), and the set-up that it gives.
#![tactic(auto)]

pub mod configs;
pub mod errors;
mod modules;
mod parts;
mod reading;
mod setups;
mod tables;

pub use configs::Config;
pub use errors::ConfigError;
