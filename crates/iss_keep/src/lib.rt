//! A kept node: a replica that journals every accepted event before it releases the event's outcome.
#![tactic(auto)]

mod answers;
mod entries;
mod fresh;
mod keeping;
mod kept;
mod laws;
mod reopening;
mod shown;

pub use entries::{decode_entry, encode_entry, entries_are_exact};
pub use fresh::Fresh;
pub use kept::Kept;
pub use laws::{
    a_crash_leaves_one_of_two, a_journal_recovers, leaves_are_of_one_entry,
    leaves_are_of_one_statement,
};
