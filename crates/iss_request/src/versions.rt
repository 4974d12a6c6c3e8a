//! The versions of the formats. Any number but 2 means the first version.
ghost use Rattle.std.specs.Prelude.{◌≡◌};
ghost use Rattle.iss_request.specs.Formats.{is_second, version_byte, requests_most};

/// The first version.
pub const FIRST: u8 = 1;

/// The second version: larger batches.
pub const SECOND: u8 = 2;

/// Whether a number names the second version.
pub fn is_second(version: u8) -> bool
    ensures { result ≡ is_second version }
{
    version == SECOND
}

/// The byte that identifies a version: the first of a packet, and of a value that is a batch.
pub fn version_byte(version: u8) -> u8
    ensures { result ≡ version_byte version }
{
    if is_second(version) { SECOND } else { FIRST }
}

/// The maximal number of requests in a batch.
pub fn requests_most(version: u8) -> u16
    ensures { result ≡ requests_most version }
{
    if is_second(version) { 256 } else { 32 }
}
