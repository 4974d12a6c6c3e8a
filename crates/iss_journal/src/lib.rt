//! A journal: a list of entries on a disk. Each entry is durable before its `append` returns Ok, whatever a crash
//! tears.
#![tactic(auto)]

mod entries;
mod errors;
mod journal;
mod keep;
mod laws;
mod load;
mod reserved;
mod retained;
mod scan;
mod settle;
mod shared;

pub use entries::MAX_ENTRY;
pub use errors::AttachError;
pub use journal::Journal;
pub use laws::a_file_has_one_reading;
pub use shared::SharedEntries;
