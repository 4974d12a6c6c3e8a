//! Winternitz one-time signatures under a Merkle tree, over SHA-256.
//!
//! A key is a secret and a height `h` from 2 to 20. Each of its `2^h` leaves signs one statement by 67 hash chains of
//! 15 steps: 64 for the hexadecimal digits of the statement's digest, and three for their checksum. Up to height 12
//! the leaves are under one tree. A taller key has two levels, so that it is ready in the time of a small tree: the
//! leaves of a top tree of height `h - 10` sign the roots of bottom trees of height 10, which are computed as they are
//! needed.
//!
//! The public key is the root of the only or the top tree, and `h`. A signature has the leaf's number, a value of each
//! chain, and the leaf's authentication path: `2149 + 32 * h` bytes in all. With two levels it has both for each of the
//! two trees: `4613 + 32 * (h - 10)` bytes.
//!
//! Proved: [`verify`] accepts exactly what the definition says, and what a key signs verifies. Unforgeability is no
//! theorem here. It rests on SHA-256, and on signing no two statements with one leaf. [`Keys::sign`] ensures the latter
//! as long as its count of used leaves is kept.
#![tactic(auto)]

mod answers;
mod chain;
mod comparing;
mod digests;
mod digits;
mod directories;
mod heights;
mod held;
mod keyrings;
mod late;
pub mod laws;
mod levels;
mod made;
mod marks;
mod places;
mod remembered;
mod shared;
mod signing;
mod tree;
mod verification;

pub use directories::Directory;
pub use shared::SharedDirectory;
pub use signing::{Keys, NoMemory, SignError};
pub use verification::{PublicKey, verify};
