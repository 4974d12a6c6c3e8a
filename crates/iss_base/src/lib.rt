//! What several crates share: lists kept newest first, membership, the intersection of quorums, and heights of keys.
#![tactic(auto)]

pub mod heights;
