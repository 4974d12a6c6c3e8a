//! State transfer: a lagging node asks a peer for an epoch, and adopts the values that a checkpoint certificate states
//! (PBFT, ISS).
#![tactic(auto)]

pub mod adopting;
pub mod bodies;
pub mod laws;
pub mod pieces;

pub use adopting::{Adoption, adopt};
pub use bodies::{decode_ask, decode_piece, encode_ask, encode_piece, read_piece, write_piece};
pub use laws::{asks_are_exact, pieces_are_exact, what_is_adopted_a_correct_node_said};
pub use pieces::{Ask, Piece};
