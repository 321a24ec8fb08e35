//! How venues and legs stand, as they are told over HTTP.

ghost use Rattle.std.specs.Prelude.{◌≡◌, ◌⊎◌, ◌<◌, ◌≤◌, length, IfOk, MatchOption};
ghost use Rattle.desk_serve.specs.Shown.{IsVenue, row_of, totals_of};

use clock::Clock;
use day_executions::unbooked_now;
use day_log::{BOUNDS, OrderTimes};
use desk_floor::{Floor, LegStanding, venue_status};
use desk_json::{LegRow, OrderWaits, VenueRow, WaitCount};
use desk_words::VenueName;
use exec_collector::Accounts;
use kept_link::Telling;
use leg::{Split, Totals};
use release_lock::Run;
use std::alloc::{AllocError, Global};
use std::io::Write;
use std::sync::Wait;

/// How long orders waited: at most each of the bounds, however long, and in all.
fn waits_of(alloc: Global, times: &OrderTimes) -> Result<OrderWaits, AllocError> {
    let mut within = Vec::new(alloc);
    let mut count: u64 = 0;
    for (place, most) in BOUNDS.iter().enumerate() {
        count = count.saturating_add(times.count(place));
        within.push(WaitCount { most: *most, count })?;
    }
    Ok(OrderWaits {
        within,
        count: count.saturating_add(times.count(BOUNDS.len())),
        micros: times.micros(),
    })
}

/// How the venue at a place stands, if there is one. It may wait for locks. The only refusal is out of memory.
pub(crate) fn venue_row<L: Run, M: Accounts, W: Write + Drop, J: Telling>(
    rt: &impl Wait,
    clock: &impl Clock,
    alloc: Global,
    floor: &Floor<L, M, W, J>,
    place: usize,
) -> Result<Option<VenueRow>, AllocError>
    ensures { IfOk result (λ told. MatchOption told
        ((length floor.now.names.items ≤ place) ⊎ (length floor.now.views.items ≤ place))
        (λ row. (place < length floor.now.views.items) × IsVenue floor.now.names.items place row)) }
{
    let Some(status) = venue_status(rt, floor, place) else {
        return Ok(None);
    };
    let Some(view) = floor.views.get(place) else {
        return Ok(None);
    };
    let traffic = view.traffic();
    let settled = view.settled_legs();
    Ok(Some(VenueRow {
        status,
        settled,
        withdrawn: view.withdrawn_legs().min(settled),
        unbooked: unbooked_now(rt, &floor.collector, place),
        connections: traffic.connections(),
        refused_dials: traffic.refused_dials(),
        messages_sent: traffic.messages_sent(),
        messages_received: traffic.messages_received(),
        bytes_sent: traffic.bytes_sent(),
        bytes_received: traffic.bytes_received(),
        waits: waits_of(alloc, traffic.order_times())?,
        heard_ms_ago: match traffic.messages_received() {
            0 => None,
            _ => view.heard_ms_ago(clock),
        },
    }))
}

/// What became of a leg's shares.
fn totals_of(parts: &Split) -> Totals
    ensures { result ≡ totals_of parts.now }
{
    Totals {
        filled: parts.filled(),
        busted: parts.busted(),
        cancelled: parts.cancelled(),
        withdrawn: parts.withdrawn(),
        still_open: parts.still_open(),
    }
}

/// A leg as it is told, if its venue has a name.
pub(crate) fn leg_row(names: &[VenueName], leg: LegStanding) -> Option<LegRow>
    ensures { result ≡ row_of names.now leg }
{
    let LegStanding {
        id,
        venue,
        terms,
        parts,
        paid,
        state,
    } = leg;
    let name = names.get(usize::from(venue.number()))?;
    Some(LegRow {
        id,
        venue: name.clone().unwrap(),
        terms,
        totals: totals_of(&parts),
        paid,
        state,
    })
}
