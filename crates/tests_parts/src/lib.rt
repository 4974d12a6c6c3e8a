//! Tests of public calls, where neither a clause nor a worked schedule shows what they answer: keys, signatures and
//! digests beside another program's, the second version of the formats, links, files. They are a crate of their own,
//! since a crate that has tests is proved twice.
#![tactic(auto)]

pub mod packets;
#[cfg(test)]
mod tests;
