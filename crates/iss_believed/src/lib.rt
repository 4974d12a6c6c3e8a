//! What clients believe of the replies of a run: the answers of its one log (PBFT, with Castro and Liskov's clients: f
//! + 1 equal replies). A theorem, and no code.
#![tactic(auto)]

pub mod laws;

pub use laws::replies_are_of_one_log;
