//! How a call ends.
ghost use Rattle.std.specs.Prelude.{◌≡◌};
ghost use Rattle.iss_cli.specs.Codes.{code_of, outcome_code};

/// What an answer says, once all of it is printed.
#[derive(Clone, Copy, Debug, PartialEq, Eq)]
pub enum Outcome {
    /// Success.
    Done,
    /// The words are not a call.
    RefusedWords,
    /// The input is not of the form that the command reads.
    RefusedInput,
    /// The run stopped: a correct node's signature was forged. What was printed ends with the evidence.
    Forged,
    /// The run stopped: two strings have one digest. What was printed ends with the evidence.
    Collision,
    /// A client counted a reply to a request, and accepted no answer.
    Unconfirmed,
    /// The input is no configuration, or there is no node that the words name.
    RefusedConfiguration,
    /// An epoch of the exported log is not certified.
    Uncertified,
    /// The node's journal is damaged.
    DamagedJournal,
}

/// How the top call ends.
#[derive(Clone, Copy, Debug, PartialEq, Eq)]
pub enum Status {
    /// The whole answer was printed.
    Answered(Outcome),
    /// Out of memory. A prefix of the answer may have been printed.
    NoMemory,
    /// The source failed. Nothing was printed.
    SourceFailed,
    /// The sink failed. A prefix of the answer may have been printed.
    SinkFailed,
    /// The links failed. Nothing was printed.
    LinksFailed,
    /// The disk failed. Nothing was printed.
    DiskFailed,
}

impl Outcome {
    // The exit status of a call whose answer has this outcome.
    fn code(self) -> u8
        ensures { result ≡ outcome_code self }
    {
        match self {
            Outcome::Done => 0,
            Outcome::RefusedWords => 2,
            Outcome::RefusedInput => 3,
            Outcome::Forged => 6,
            Outcome::Collision => 7,
            Outcome::Unconfirmed => 12,
            Outcome::RefusedConfiguration => 11,
            Outcome::Uncertified => 12,
            Outcome::DamagedJournal => 10,
        }
    }
}

impl Status {
    /// The exit status of the program.
    pub fn code(self) -> u8
        ensures { result ≡ code_of self }
    {
        match self {
            Status::Answered(outcome) => outcome.code(),
            Status::NoMemory => 1,
            Status::SourceFailed => 4,
            Status::SinkFailed => 5,
            Status::LinksFailed => 8,
            Status::DiskFailed => 9,
        }
    }
}
