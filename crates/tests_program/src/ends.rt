//! How a run ends if its source or sink fails at one of its calls.
ghost use Rattle.std.specs.Prelude.{◌≡◌, if◌then◌else◌, nat_lt};

/// The exit status of a run whose source fails at a call. Calls after the last read do not matter.
pub fn status_of_source(call: u64, reads: u64) -> u8
    ensures { result ≡ (if nat_lt call reads then 4 else 0) }
{
    if call < reads { 4 } else { 0 }
}

/// The exit status of a run whose sink fails at a call.
pub fn status_of_sink(call: u64, puts: u64) -> u8
    ensures { result ≡ (if nat_lt call puts then 5 else 0) }
{
    if call < puts { 5 } else { 0 }
}
