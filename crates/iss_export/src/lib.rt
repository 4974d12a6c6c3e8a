//! The log that a core exports after a run, as a text with its certificates, and what is printed of such a log.
#![tactic(auto)]

pub mod exporting;
pub mod printing;

pub use exporting::export;
pub use printing::certified;
