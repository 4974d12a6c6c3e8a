//! The messages of PBFT (Castro and Liskov, "Practical Byzantine Fault Tolerance"), their encoding, and what is
//! signed of them.
#![tactic(auto)]

pub mod copies;
pub mod laws;
pub mod messages;
pub mod reading;
pub mod signing;
pub mod writing;

pub use copies::{copy_certificates, copy_changes};
pub use laws::messages_are_exact;
pub use messages::{Body, Certificate, Change, Message};
pub use reading::read;
pub use signing::{
    Mark, digest_of, mark_of, state_at, state_change, state_marked, state_new, string_of,
};
pub use writing::write;
