//! The checkpoint votes that a node counts and the certificates that it keeps, for all epochs, with their packets and
//! claims (PBFT and ISS: checkpoints).
#![tactic(auto)]

pub mod ballots;
pub mod claims;
pub mod packets;

pub use ballots::{Ballots, Taking, copy_of_vote};
pub use claims::{claim_of_vote, claims_of_cert};
pub use packets::{ask_of, copy_of_cert, pack_ask, pack_piece, pack_vote, piece_of, vote_of};
