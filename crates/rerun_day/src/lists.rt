//! Other lists with the same calls but for ticks.
use book::Call;
use rules::LAST_MOMENT;
use std::alloc::{AllocError, Global};

fn is_tick_of_day(call: &Call) -> bool {
    call.is_tick() && call.time() <= LAST_MOMENT
}

/// The latest time of the day that a call has.
pub fn latest(calls: &[Call]) -> u64 {
    calls
        .iter()
        .map(|call| call.time())
        .filter(|time| *time <= LAST_MOMENT)
        .max()
        .unwrap_or(0)
}

// For each call, the earliest time of a shared call from there on.
fn earliest_to_come(heap: Global, calls: &[Call]) -> Result<Vec<u64>, AllocError> {
    let mut earliest = u64::MAX;
    let mut times = Vec::with_capacity(heap, calls.len())?;
    for call in calls.iter().rev() {
        if !call.is_tick() {
            earliest = earliest.min(call.time());
        }
        times.push(earliest)?;
    }
    times.reverse();
    Ok(times)
}

/// The shared calls, with a tick at each of the ends, in ascending order, before the first shared call that is not earlier, but
/// none that is later than a shared call to come; and a last tick.
pub fn with_ticks(
    heap: Global,
    calls: &[Call],
    ends: &[u64],
    last: u64,
) -> Result<Vec<Call>, AllocError> {
    let to_come = earliest_to_come(heap, calls)?;
    let mut list = Vec::new(heap);
    let mut ends = ends;
    for (call, earliest) in calls.iter().zip(to_come.iter()) {
        if call.is_tick() {
            continue;
        }
        let due = ends
            .iter()
            .position(|end| *end > *earliest)
            .unwrap_or(ends.len());
        for end in &ends[..due] {
            list.push(Call::Tick { time: *end })?;
        }
        ends = &ends[due..];
        list.push(call.again(heap)?)?;
    }
    list.push(Call::Tick { time: last })?;
    Ok(list)
}

/// The premise of the law that depends on the calls alone: the first tick that is later than a shared call after it. A tick past
/// the day's last moment is refused and changes nothing, so that it may stand anywhere.
pub fn tick_too_late(heap: Global, calls: &[Call]) -> Result<Option<u64>, AllocError> {
    let to_come = earliest_to_come(heap, calls)?;
    let late = calls.iter().zip(to_come.iter()).find(|(call, earliest)| is_tick_of_day(call)
        && call.time() > **earliest);
    Ok(late.map(|(tick, _)| tick.time()))
}
