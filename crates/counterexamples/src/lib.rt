//! Wrong variants of the protocols, each without a rule (Raft's without two), and for each a world that it reaches in
//! which correct replicas disagree. So the law of safety refuses them, not only the clauses that tie the code to its
//! definition.
#![tactic(auto)]

pub mod chained;
pub mod hotstuff;
pub mod pbft;
pub mod raft;

pub use chained::chained_needs_views_in_digests;
pub use hotstuff::hotstuff_needs_the_safe_test;
pub use pbft::{pbft_needs_distinct_voters, pbft_needs_the_highest_certificate};
pub use raft::raft_needs_entries_of_the_own_term;
