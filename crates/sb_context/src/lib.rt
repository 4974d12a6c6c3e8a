//! What the functions of an ordering module share in one step: the parameters, and the fact that they are good.
#![tactic(auto)]

pub mod context;

pub use context::{Context, Modelled};
