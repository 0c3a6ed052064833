use chew_measuring::Failure;
use std::io::Print;
use std::time::Duration;

/// Prints how long so many calls took.
pub(crate) fn print_calls<R: Print>(rt: &R, calls: u64, time: Duration) -> Result<(), Failure> {
    let nanos = time.as_nanos();
    let each = nanos.checked_div(u128::from(calls)).unwrap_or(0);
    let rate = (u128::from(calls) * 1_000_000_000)
        .checked_div(nanos)
        .unwrap_or(0);
    println!(rt; "{each} ns each, {rate} a second")?;
    Ok(())
}

/// Prints how long something took.
pub(crate) fn print_time<R: Print>(rt: &R, what: &str, time: Duration) -> Result<(), Failure> {
    println!(rt; "{what}: {} ns", time.as_nanos())?;
    Ok(())
}
