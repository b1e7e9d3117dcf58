//! What was measured, printed.
use anyhow::Result;
use std::rt::Clock;
use std::time::Instant;

/// Prints the nanoseconds since the start, for each of so many times.
pub(crate) fn print_each<R: Clock + Print>(
    rt: &R,
    what: &str,
    start: Instant,
    times: u64,
) -> Result<()> {
    let nanos = start.elapsed(rt)?.as_nanos();
    if times == 0 {
        return Ok(());
    }
    let tenths = nanos.saturating_mul(10) / u128::from(times);
    println!(rt; "{what}: {}.{} ns", tenths / 10, tenths % 10)?;
    Ok(())
}

/// Prints the seconds since the start.
pub(crate) fn print_seconds<R: Clock + Print>(rt: &R, what: &str, start: Instant) -> Result<()> {
    let micros = start.elapsed(rt)?.as_micros();
    println!(rt;
        "{what}: {}.{:06} s",
        micros / 1_000_000,
        micros % 1_000_000
    )?;
    Ok(())
}
