//! What the words of a call ask for, read by `clap`.
#![tactic(auto)]

mod forms;
mod numbers;
mod orders;
mod reading;

pub use numbers::read_number;
pub use orders::{NodeOrder, Order, WordsError};
pub use reading::read_words;
