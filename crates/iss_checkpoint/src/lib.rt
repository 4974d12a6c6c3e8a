//! Checkpoint votes on the log at the end of an epoch, and the certificates that a quorum of equal votes makes (PBFT
//! and ISS: stable checkpoints).
#![tactic(auto)]

pub mod bodies;
pub mod certificates;
pub mod checking;
pub mod laws;
pub mod tallies;
pub mod votes;

pub use bodies::{decode_vote, encode_vote, read_vote, write_vote};
pub use certificates::{read_cert, write_cert};
pub use checking::check;
pub use laws::{certificates_are_exact, certificates_have_a_correct_signer, votes_are_exact};
pub use tallies::{Added, Refusal, Tally};
pub use votes::{Cert, Vote, vote_statement};
