//! What HotStuff and chained HotStuff share of a replica (Yin, Malkhi, Reiter, Golan Gueta and Abraham, "HotStuff: BFT
//! Consensus with Linearity and Responsiveness"): what a leader counts and proposes, the messages before they are
//! signed, the batches that were accepted, and the slots that a branch delivers.
#![tactic(auto)]

pub mod accepted;
pub mod ballots;
pub mod delivering;
pub mod drafts;
pub mod fields;
pub mod news;
pub mod placing;
pub mod turns;
pub mod views;

pub use accepted::Accepted;
pub use ballots::Ballots;
pub use delivering::pair;
pub use drafts::{Draft, Recipient, proposal_draft, round_draft, send, vote_draft};
pub use fields::{Proposal, SignedVote};
pub use news::Words;
pub use placing::{free_slot, keep_at, keep_what};
pub use turns::{Last, Turns};
pub use views::{leader_of, round_of};
