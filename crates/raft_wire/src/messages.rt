//! The messages of Raft.
use crate::entries::Entry;
use iss_request::Seq;

/// The messages of Raft. `Append` is AppendEntries: entries after the previous index and term, with the leader's commit
/// index. `Reply` answers it: with `ok` the index up to which the log matches, else the refused previous index.
/// `AskVote` is RequestVote, with the candidate's last index and term. `Vote` answers that.
#[derive(Drop)]
pub enum Message {
    Append {
        term: u16,
        previous: u32,
        previous_term: u16,
        commit: u32,
        entries: Seq<Entry>,
    },
    Reply {
        term: u16,
        ok: bool,
        index: u32,
    },
    AskVote {
        term: u16,
        last: u32,
        last_term: u16,
    },
    Vote {
        term: u16,
        granted: bool,
    },
}
