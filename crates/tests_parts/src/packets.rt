//! Packets that tests send.
ghost use Rattle.std.specs.Prelude.{◌≡◌, IfOk, length};

use std::alloc::{AllocError, Global};

/// A packet of this length. Neighbouring bytes differ, and packets with different keys differ everywhere.
pub fn packet(alloc: Global, len: usize, key: u8) -> Result<Vec<u8>, AllocError>
    ensures { IfOk result (λ bytes. length bytes.items ≡ len) }
{
    let mut bytes = Vec::new(alloc);
    for i in 0..len {
        bytes.push((i % 251) as u8 ^ key)?;
    }
    Ok(bytes)
}
