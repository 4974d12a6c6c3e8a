//! What a configuration says.
use iss_request::Policy;

/// What the text of a configuration says of a cluster and of its run. The first nine fields are those of a schedule's
/// header. Before the first turn every node gets `requests` requests. The run ends after `turns` turns.
#[derive(Clone, Copy, Debug, PartialEq, Eq)]
pub struct Config {
    pub module: u8,
    pub policy: Policy,
    pub f: u32,
    pub epoch: u64,
    pub buckets: u32,
    pub batch: u32,
    pub window: u32,
    pub clients: u32,
    pub keys: u32,
    pub requests: u32,
    pub turns: u32,
}
