//! Tests of what no schedule can show. The top call with sources, sinks, links and disks that fail, and with running
//! nodes. And a world with echo, a module that the program does not run: one node is Byzantine in it, or one byte of a
//! packet is changed.
#![tactic(auto)]

pub mod ends;
pub mod setups;
#[cfg(test)]
mod tests;

pub use setups::four_nodes;
