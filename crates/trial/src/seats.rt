//! The seats of callers.

use crate::TrialFault;
use release_lock::{CallerSeat, Run};
use std::alloc::Global;

/// Splits a seat into those of so many callers, of at least one.
pub fn seats_of<L: Run>(
    alloc: Global,
    seat: CallerSeat<L>,
    callers: u64,
) -> Result<Vec<CallerSeat<L>>, TrialFault> {
    let mut seat = seat;
    let mut seats = Vec::new(alloc);
    for _ in 1..callers {
        seats.push(seat.split().ok_or(TrialFault::Missing)?)?;
    }
    seats.push(seat)?;
    Ok(seats)
}
