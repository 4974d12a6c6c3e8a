//! The composition theorem. It models all nodes over all epochs, as far as logs depend on them. Whatever moves a
//! cluster makes, the logs of its correct nodes are prefixes of one log (ISS, whole protocol).
#![tactic(auto)]

pub mod one_instance;
pub mod theorems;

pub use one_instance::claims_are_of_one_instance;
pub use theorems::composition;
