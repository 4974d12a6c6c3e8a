//! Replies to requests in the log: a store of keys and values as a state machine on the log, replies that a node signs
//! with a key of their own, and what a client believes (PBFT: f + 1 equal replies).
#![tactic(auto)]

pub mod clients;
pub mod commands;
pub mod laws;
pub mod repliers;
pub mod replies;
pub mod stores;

pub use clients::{Client, Refusal, Stated, Taken};
pub use commands::Action;
pub use laws::{repliers_follow_the_log, replies_are_their_nodes, reply_keys_are_apart};
pub use repliers::{Next, Replier};
pub use replies::{Reply, reply_statement};
pub use stores::Store;
