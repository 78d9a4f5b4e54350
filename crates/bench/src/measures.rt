// The processor time of a round.

use anyhow::Result;
use std::time::{CpuClock, Duration};

/// Returns how many nanoseconds of processor time each of this many rounds took since `start`.
pub fn nanos_each<R: CpuClock>(rt: &R, start: Duration, rounds: u32) -> Result<u128> {
    let whole = rt.process_cpu_time()?.saturating_sub(start);
    Ok(whole.as_nanos() / u128::from(rounds.max(1)))
}
