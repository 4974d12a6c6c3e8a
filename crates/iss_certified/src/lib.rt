//! What a certified log says of a run, for an auditor who did not take part (ISS, checkpoints): what a correct node
//! exports is certified, and a certified log is a prefix of a correct node's log. Theorems, and no code.
#![tactic(auto)]

pub mod laws;

pub use laws::{certified_logs_are_of_the_run, exports_are_certified};
