//! Schedules: the set-up of a cluster and its events one by one, with their text.
#![tactic(auto)]

pub mod errors;
mod events;
mod faulty;
mod forms;
mod header;
pub mod laws;
mod lines;
mod modules;
mod names;
mod reading;
pub mod schedules;
mod words;
mod writing;

pub use errors::{LineFault, ReadError};
pub use events::{bytes_from, bytes_in};
pub use lines::Lines;
pub use reading::{MOST_BYTES, MOST_EVENTS, read, read_setup};
pub use schedules::{Event, Schedule};
pub use words::{Words, behind, bytes_of, cut_at, is_number, number_of};
pub use writing::{put, put_bytes, put_decimal, put_header, put_number, write};
