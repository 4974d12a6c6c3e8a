//! What words ask for.
use std::alloc::AllocError;

/// What the words of a call ask for.
#[derive(Clone, Copy)]
pub enum Order<'a> {
    /// The report of a schedule.
    Replay,
    /// The summary of the run of a generated schedule.
    Lab { number: u64, events: u32 },
    /// The replies of correct nodes to the requests of a schedule's run.
    Replies,
    /// What a client makes of replies.
    Answers,
    /// The certified log of a core after a schedule's run.
    Export { core: u32 },
    /// Whether a text is a certified log.
    Audit,
    /// What all nodes of a cluster do in one process. End i of their links is at port `port + i`.
    Cluster { port: u16 },
    /// What one node of a cluster does, which keeps a journal.
    Node(NodeOrder<'a>),
}

/// Which node runs. End i of the cluster's links is at port `port + i`, and the journal is the file of this name.
#[derive(Clone, Copy)]
pub struct NodeOrder<'a> {
    pub node: u32,
    pub port: u16,
    pub file: &'a str,
}

/// Why words were not read.
#[derive(Clone, Copy, Debug, PartialEq, Eq)]
pub enum WordsError {
    /// They ask for nothing.
    Refused,
    /// Out of memory.
    NoMemory,
}

impl From<AllocError> for WordsError {
    ghost use Rattle.std.specs.Prelude.{◌≡◌};
    ghost use Rattle.iss_words.specs.declared.orders.WordsError.TheVariants.{NoMemory};

    ghost from_gives = { λ _ e. e ≡ NoMemory };

    fn from(_error: AllocError) -> WordsError {
        WordsError::NoMemory
    }
}
