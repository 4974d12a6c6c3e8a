//! Sequenced Broadcast: the trait of an ordering module, the inputs and effects of its calls, the world of one
//! instance, and the laws that each module proves (ISS, "Sequenced Broadcast").
#![tactic(auto)]

pub mod content;
pub mod effects;
pub mod laws;
pub mod sequenced;
pub mod signers;
pub mod signing;

pub use content::{Content, read_content, write_content};
pub use effects::{Claim, Effects, Input, Params, StepError, To, is_next};
pub use laws::broadcast;
pub use sequenced::{Sequenced, asks_if};
pub use signers::{Signed, are_signers, copy_signers, put_signers, read_signers};
pub use signing::{put_head, sign};
