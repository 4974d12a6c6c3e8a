//! The parts of a configuration, as its table has them.
use iss_request::Policy;

/// The ordering protocol, how many faults it withstands, and the slots of an epoch.
#[derive(Clone, Copy)]
pub(crate) struct Protocol {
    pub(crate) module: u8,
    pub(crate) policy: Policy,
    pub(crate) f: u32,
    pub(crate) epoch: u64,
}

/// The sizes of batches, windows and keys, and how many buckets and clients there are.
#[derive(Clone, Copy)]
pub(crate) struct Sizes {
    pub(crate) buckets: u32,
    pub(crate) batch: u32,
    pub(crate) window: u32,
    pub(crate) clients: u32,
    pub(crate) keys: u32,
}

/// What a loop does.
#[derive(Clone, Copy)]
pub(crate) struct Work {
    pub(crate) requests: u32,
    pub(crate) turns: u32,
}
