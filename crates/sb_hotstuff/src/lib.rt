//! HotStuff, an ordering module for f Byzantine replicas of 3f+1, over any number of rounds: definitions, laws and
//! rules. A leader proposes nodes of a tree, one after another. Three phases of 2f+1 votes (prepare, pre-commit,
//! commit) decide a node with its branch, and a commit vote locks the replica. (Yin, Malkhi, Reiter, Golan Gueta and
//! Abraham, "HotStuff: BFT Consensus with Linearity and Responsiveness"; ISS, "Sequenced Broadcast".)
#![tactic(auto)]

pub mod accepting;
pub mod facts;
pub mod hotstuff;
pub mod laws;
pub mod outcomes;
pub mod preparing;
pub mod proposing;
pub mod rules;
pub mod showing;
pub mod state;

pub use facts::{
    a_quorum_accepted_what_is_delivered, batches_are_accepted_once, batches_share_an_acceptor,
    certified_nodes_extend_decided_ones, first_votes_respect_locks, good_certificates_are_votes,
    later_votes_rest_on_certificates, nodes_agree, the_leader_accepted_what_is_delivered,
    views_have_one_node, votes_are_once_in_ascending_views,
};
pub use hotstuff::HotStuff;
pub use laws::{hotstuff_has_a_grammar, hotstuff_is_lawful, hotstuff_is_safe};
