//! Tests of public calls only.
mod calls;
mod damaged;
mod four;
mod liars;
mod mutations;
mod running;
mod spelled;
mod top;
