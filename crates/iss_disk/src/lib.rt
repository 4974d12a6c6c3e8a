//! Disks: files by name that are read, written, cut and synced. A crash may tear what was not synced.
#![tactic(auto)]

mod call;
mod disk;
mod errors;
mod fate;
mod file;
mod lent;
mod memory;
mod notes;
mod stored;

pub use disk::{Disk, Fused};
pub use errors::{EndError, Failed, NoMemory};
pub use file::FileDisk;
pub use memory::MemoryDisk;
