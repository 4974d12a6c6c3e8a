//! SHA-256 of 40 bytes, of which keys are made. Each string depends on the digest before.
use crate::times::print_since;
use sha2::{Digest, Sha256};
use std::test::Fail;
use std::time::Instant;

fn digests(count: u32) -> u8 {
    let mut message = [0u8; 40];
    for _ in 0..count {
        let digest = Sha256::digest(message);
        message[0] = digest[0];
    }
    message[0]
}

/// Prints the time of this many digests.
pub(crate) fn time_all(rt: &HostRuntime, count: u32) -> Result<(), Fail> {
    let start = Instant::now(rt)?;
    let last = digests(count);
    print_since(rt, "digests", start, u32::from(last))
}
