//! Where the logs of venues break a sentence.

ghost use Rattle.std.specs.Prelude.{◌≡◌, length, slice_get, IfOk};
ghost use Rattle.day_rules.specs.Judged.{broken_line, first_place, found_with, gaps_broken, line_at, order_broken, settled_broken};

use crate::desk_day::DeskDay;
use crate::judged::Place;
use crate::lines::earlier;
use crate::order_rules::{first_doubt, first_gap, first_out_of_order};
use crate::sentence::Sentence;
use crate::sweep_day::is_ended;
use crate::venue_day::VenueDay;
use std::alloc::{AllocError, Global};

/// Order: the first order that isn't a leg released to the venue, behind the leg of the order before it; or is sent
/// again.
fn order_broken(
    alloc: Global,
    desk: &DeskDay,
    venue: usize,
    day: &VenueDay,
) -> Result<Option<u64>, AllocError>
    ensures { IfOk result (λ line. line ≡ order_broken desk.now venue day.now) }
{
    let found = first_out_of_order(alloc, desk, venue, day)?;
    Ok(earlier(day.order_line(found), day.notes().sent_once))
}

/// Gaps: the first order in doubt before one that was taken, or report on a withdrawn one.
fn gaps_broken(day: &VenueDay) -> Option<u64>
    ensures { result ≡ gaps_broken day.now }
{
    earlier(
        day.order_line(first_gap(day.watch())),
        day.notes().not_withdrawn,
    )
}

/// Settled: the first order in doubt, once both sides logged out.
fn settled_broken(day: &VenueDay) -> Option<u64>
    ensures { result ≡ settled_broken day.now }
{
    if is_ended(day.watch().close()) {
        return day.order_line(first_doubt(day.watch()));
    }
    None
}

/// The first line of a venue's log that breaks a sentence.
fn broken_line(
    alloc: Global,
    desk: &DeskDay,
    venue: usize,
    sentence: Sentence,
    day: &VenueDay,
) -> Result<Option<u64>, AllocError>
    ensures { IfOk result (λ line. line ≡ broken_line desk.now venue sentence day.now) }
{
    match sentence {
        Sentence::Placed => Ok(None),
        Sentence::Order => order_broken(alloc, desk, venue, day),
        Sentence::Gaps => Ok(gaps_broken(day)),
        Sentence::Close => Ok(day.order_line(day.watch().late())),
        Sentence::Settled => Ok(settled_broken(day)),
        Sentence::Reports => Ok(earlier(day.notes().known_order, day.notes().one_use)),
        Sentence::Shares => Ok(day.notes().sums_add_up),
    }
}

fn line_at(
    alloc: Global,
    desk: &DeskDay,
    venues: &[VenueDay],
    sentence: Sentence,
    venue: usize,
) -> Result<Option<u64>, AllocError>
    ensures { IfOk result (λ line. line ≡ line_at desk.now sentence venue (slice_get venues.now venue)) }
{
    match venues.get(venue) {
        Some(day) => broken_line(alloc, desk, venue, sentence, day),
        None => Ok(None),
    }
}

fn found_with(found: Option<Place>, venue: usize, line: Option<u64>) -> Option<Place>
    ensures { result ≡ found_with found venue line }
{
    match (found, line) {
        (Some(place), _) => Some(place),
        (None, Some(line)) => Some(Place::OfVenue(venue, line)),
        (None, None) => None,
    }
}

/// Where the first of the logs that breaks a sentence does so.
#[tactic(auto, using(crate::proofs::OneMore::one_venue_more))]
pub(crate) fn first_place(
    alloc: Global,
    desk: &DeskDay,
    venues: &[VenueDay],
    sentence: Sentence,
) -> Result<Option<Place>, AllocError>
    ensures { IfOk result (λ found. found ≡ first_place desk.now sentence venues.now (length venues.now)) }
{
    let mut found = None;
    for venue in 0..venues.len() {
        let line = line_at(alloc, desk, venues, sentence, venue)?;
        found = found_with(found, venue, line);
    }
    Ok(found)
}
