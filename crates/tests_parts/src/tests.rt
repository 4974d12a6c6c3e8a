//! Tests of each crate's calls, each in a module of its own.
mod configs;
mod frames;
mod handed_out;
mod journals;
mod keys;
mod links;
mod reading;
mod schedules;
mod snapshot_bytes;
mod versions;
