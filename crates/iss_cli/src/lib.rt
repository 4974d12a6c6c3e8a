//! The program's top call: from its words and input to its output and status.
#![tactic(auto)]

pub mod answers;
pub mod audits;
pub mod believing;
pub mod checked;
pub mod ends;
pub mod errors;
pub mod failing;
pub mod input;
pub mod memory;
pub mod output;
pub mod running;
pub mod status;
pub mod streams;
pub mod top;
pub mod views;

pub use answers::Answer;
pub use ends::{Sink, Source};
pub use errors::{AnswerError, EndError, Failed};
pub use failing::{FailingSink, FailingSource, Script};
pub use memory::{MemorySink, MemorySource};
pub use status::{Outcome, Status};
pub use streams::{ReadSource, WriteSink};
pub use top::{MOST_TAKEN, run};
pub use views::View;
