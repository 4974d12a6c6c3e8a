//! View changes of PBFT: the claims of messages, good certificates, and what a new view proposes (Castro and Liskov,
//! "Practical Byzantine Fault Tolerance").
#![tactic(auto)]

pub mod choosing;
pub mod claiming;
pub mod goodness;
pub mod laws;

pub use choosing::{best, best_shown, choice, choice_digest, choice_string};
pub use claiming::claims;
pub use goodness::{all_good, are_enough, has_slot, is_good, primary};
pub use laws::{a_view_begins_with_a_quorum, certificates_have_votes, the_choice_is_the_highest};
