//! The replies of a run, as a text.
#![tactic(auto)]

pub mod texts;

pub use texts::replies;
