//! A replica as it enters an epoch, in bytes: with it a journal may do without all events before it.
#![tactic(auto)]

pub mod laws;
pub mod reading;
pub mod snapshots;
pub mod writing;

pub use laws::snapshots_are_exact;
pub use reading::decode_snapshot;
pub use snapshots::{Snapshot, Span};
pub use writing::encode_snapshot;
