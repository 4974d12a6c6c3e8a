//! Texts that begin with the header of a schedule: the lines after it, up to the last line, `end`. Exported logs and
//! replies are such texts.
#![tactic(auto)]

pub mod lines;

pub use lines::{bad_line, is_last, next_line, put_last, read_behind};
