//! Times, in nanoseconds.
use std::test::Fail;
use std::time::Instant;

/// Prints how long it took since this time. `last` is what was computed, so that the compiler does not remove it.
pub(crate) fn print_since(
    rt: &HostRuntime,
    what: &str,
    start: Instant,
    last: u32,
) -> Result<(), Fail> {
    let nanos = start.elapsed(rt)?.as_nanos();
    println!(rt; "{what} {nanos} {last}")?;
    Ok(())
}
