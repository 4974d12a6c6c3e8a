//! The text of replies: what `replies` writes and `answers` reads, and what a client makes of it.
#![tactic(auto)]

pub mod laws;
mod lines;
pub mod printing;
pub mod reading;
pub mod told;
pub mod writing;

pub use laws::{accepted_answers_are_the_logs, texts_and_replies};
pub use printing::{Printed, print};
pub use reading::read_replies;
pub use told::Told;
pub use writing::put_replies;
