//! The contents of a text of replies.
use iss_reply::Reply;
use iss_request::{Seq, Setup};

/// Replies of the nodes of a cluster, in the order of the text. Each reply is in range, and nothing else is known of
/// it.
#[derive(Drop)]
pub struct Told {
    pub setup: Setup,
    pub replies: Seq<Reply>,
}
