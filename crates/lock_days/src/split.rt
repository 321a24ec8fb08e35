//! A seat that is split until each seat has one part.

use exec_collector::Accounts;
use release_lock::{CallerSeat, Miscounted, Run, check_placed};
use std::alloc::Global;
use std::sync::Wait;
use trial::{Floor, Trial, TrialFault, on_floor, seats_of};

/// How many seats there may be.
const MOST_SEATS: u64 = 1_024;

/// Whether one of these seats has more than one part.
fn is_any_split<L: Run>(seats: &mut Vec<CallerSeat<L>>) -> bool {
    for seat in seats.iter_mut() {
        if seat.split().is_some() {
            return true;
        }
    }
    false
}

/// A seat is split into as many as there may be.
#[derive(Drop)]
struct Split {
    alloc: Global,
}

impl<R: Wait> Trial<R> for Split {
    /// What all seats count.
    type End = Result<Result<u64, Miscounted>, TrialFault>;

    fn run<L: Run, M: Accounts>(
        self,
        rt: &R,
        floor: Floor<L, M>,
    ) -> Result<Result<u64, Miscounted>, TrialFault> {
        let Floor { lock, seat, .. } = floor;
        let mut seats = seats_of(self.alloc, seat, MOST_SEATS)?;
        if is_any_split(&mut seats) {
            return Err(TrialFault::Refused);
        }
        Ok(check_placed(&mut lock.into_locked(), seats))
    }
}

/// What 1,024 seats of one part each count, where none can be split any more.
pub fn split_seats(rt: &impl Wait, alloc: Global) -> Result<Result<u64, Miscounted>, TrialFault> {
    on_floor(rt, alloc, 1, Split { alloc })?
}
