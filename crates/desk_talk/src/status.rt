//! What `status` is answered.

use crate::caller::answer;
use crate::callers::Callers;
use clock::Clock;
use day_executions::unbooked_now;
use day_log::LineLog;
use day_sweeps::paid_sweep_now;
use desk_executions::{UnbookedCounts, UnbookedStatus};
use desk_floor::{Floor, TalkFault, Voice, venue_status};
use desk_news::Status;
use exec_collector::Accounts;
use kept_link::Telling;
use release_lock::Run;
use std::io::Write;
use std::sync::Wait;

/// That the book took all.
const NOTHING: UnbookedCounts = UnbookedCounts {
    duplicates: 0,
    overfills: 0,
    strays: 0,
    unread: 0,
};

/// What the book didn't take of the venue at a place, if there is any.
fn unbooked_at<L: Run, M: Accounts, W: Write + Drop, J: Telling>(
    rt: &impl Wait,
    floor: &Floor<L, M, W, J>,
    place: usize,
) -> Option<UnbookedStatus> {
    let name = floor.names.get(place)?;
    let counts = unbooked_now(rt, &floor.collector, place);
    if counts == NOTHING {
        return None;
    }
    Some(UnbookedStatus {
        venue: name.clone().unwrap(),
        counts,
    })
}

/// Answers `status`: a line for each venue, one for each of which the book didn't take something, and one for each
/// sweep that isn't whole. It looks at what changed since the last one of all callers.
pub fn tell_status<'a, L, M, W, J, V, R, C>(
    rt: &'a R,
    floor: &Floor<L, M, W, J>,
    callers: &Callers,
    voice: &Voice<V>,
    log: &mut LineLog<'a, R, C>,
) -> Result<(), TalkFault>
where
    L: Run,
    M: Accounts,
    W: Write + Drop,
    J: Telling,
    V: Write + Drop,
    R: Wait,
    C: Clock + Drop,
{
    for place in 0..floor.names.len() {
        if let Some(status) = venue_status(rt, floor, place) {
            answer(rt, floor, voice, log, &Status::Venue(status))?;
        }
    }
    for place in 0..floor.names.len() {
        if let Some(status) = unbooked_at(rt, floor, place) {
            answer(rt, floor, voice, log, &status)?;
        }
    }
    for number in callers.open_sweeps(rt, &floor.collector)? {
        if number == 0 {
            continue;
        }
        if let Some(sweep) = paid_sweep_now(rt, &floor.collector, number) {
            answer(rt, floor, voice, log, &Status::Sweep(sweep))?;
        }
    }
    Ok(())
}
