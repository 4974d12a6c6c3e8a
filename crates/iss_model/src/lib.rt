//! The model: what a node does at an event, and what all cores do over a schedule, with and without disk failures. It
//! is definitions over lists and runs no code; the node and the world cite them in their contracts (ISS, whole
//! protocol).
#![tactic(auto)]
