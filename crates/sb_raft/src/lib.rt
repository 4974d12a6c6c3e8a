//! Raft, an ordering module for f crash-stop nodes of 2f+1, over any number of leaders (Ongaro and Ousterhout, "In
//! Search of an Understandable Consensus Algorithm"; ISS, "Sequenced Broadcast").
#![tactic(auto)]

pub mod committing;
pub mod facts;
pub mod laws;
pub mod log;
pub mod per_peer;
pub mod raft;
pub mod rules;
pub mod sending;

pub use facts::{
    batches_are_accepted_once, batches_share_an_acceptor, later_leaders_keep_what_is_committed,
    logs_match, nodes_agree, terms_have_one_leader, the_first_leader_accepts,
    the_leader_accepted_what_is_delivered,
};
pub use laws::{raft_has_a_grammar, raft_is_lawful, raft_is_safe, the_greatest_is_committed};
pub use raft::Raft;
