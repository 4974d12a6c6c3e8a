//! Replays a schedule: applies its events to a cluster in order, and writes the text of the report.
#![tactic(auto)]

pub mod lines;
pub mod replays;
pub mod summaries;
pub mod texts;
pub mod words;

pub use replays::{Report, replay, run_event};
pub use summaries::summary;
pub use texts::text;
