//! Chained HotStuff, an ordering module for f Byzantine replicas of 3f+1, over any number of rounds: definitions, laws
//! and rules. A leader proposes nodes of a tree, each with the certificate of its parent. One phase of 2f+1 votes
//! certifies a node. Three nodes of consecutive views, each the parent of the next, decide the lowest with its branch
//! once the highest is certified. (Yin, Malkhi, Reiter, Golan Gueta and Abraham, "HotStuff: BFT Consensus with
//! Linearity and Responsiveness"; ISS, "Sequenced Broadcast".)
#![tactic(auto)]

pub mod accepting;
pub mod chained;
pub mod facts;
pub mod laws;
pub mod links;
pub mod outcomes;
pub mod preparing;
pub mod proposing;
pub mod rules;
pub mod state;
pub mod turns;

pub use chained::Chained;
pub use facts::{
    a_quorum_accepted_what_is_delivered, batches_are_accepted_once, batches_share_an_acceptor,
    certified_nodes_extend_committed_ones, good_certificates_are_votes, nodes_agree,
    the_leader_accepted_what_is_delivered, views_have_one_node, votes_are_once_in_ascending_views,
    votes_respect_locks, votes_stand_on_certificates, what_is_delivered_is_committed,
};
pub use laws::{
    chained_has_a_grammar, chained_is_lawful, chained_is_safe, chained_signs_once,
    commits_need_consecutive_views,
};
