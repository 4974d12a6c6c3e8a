//! PBFT as an ordering module: 3f+1 replicas of which f are Byzantine, and any number of view changes (Castro and
//! Liskov, "Practical Byzantine Fault Tolerance"; ISS, "Sequenced Broadcast").
#![tactic(auto)]

pub mod changing;
pub mod facts;
pub mod laws;
pub mod pbft;
pub mod prepared;
pub mod proposals;
pub mod proposing;
pub mod sending;
pub mod settling;
pub mod tallies;
pub mod view_changes;
pub mod voting;

pub use facts::{
    batches_are_accepted_once, batches_come_from_a_quorum, certificates_of_a_view_agree,
    later_views_keep_what_is_decided, nodes_commit_nothing_below, nodes_vote_once,
    proposals_are_choices, view_changes_show_what_is_committed, what_is_delivered_was_decided,
};
pub use laws::{pbft_has_a_grammar, pbft_is_lawful, pbft_is_safe, turns_are_as_defined};
pub use pbft::Pbft;
