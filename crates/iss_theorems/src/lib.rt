//! The theorems that the program's contracts cite. Every run, also one with disk failures and recovery, refines moves
//! of a cluster. So the composition theorem holds of it (ISS, whole protocol).
#![tactic(auto)]

pub mod conservation;
pub mod recovery;
pub mod signing;
pub mod slims;
pub mod theorems;

pub use conservation::requests_are_conserved;
pub use recovery::restarts_change_nothing;
pub use signing::leaves_sign_once;
pub use slims::steps_respect_slims;
pub use theorems::{
    books_are_complete, casts_are_accepted, certificates_are_of_logs, cluster_runs,
    deliveries_come_first, runs_end_with_evidence,
};
