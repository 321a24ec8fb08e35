//! What the logs of a day say of the sentences of the sweep theorem.

ghost use Rattle.std.specs.Prelude.{◌≡◌, option_map, IfOk};
ghost use Rattle.day_rules.specs.Judged.{judged, shares_place, unless_unfit, uneven_line, venue_place, verdict_at};
ghost use Rattle.day_rules.specs.declared.judged.Place.TheVariants.{OfDesk};

use crate::desk_day::DeskDay;
use crate::first_place::first_place;
use crate::sentence::Sentence;
use crate::sweep_day::first_uneven;
use crate::venue_day::VenueDay;
use std::alloc::{AllocError, Global};

/// A line of one of a day's logs, by its number, from 1.
#[derive(Clone, Copy, Debug, PartialEq, Eq)]
pub enum Place {
    /// Of the log of the desk's lines.
    OfDesk(u64),
    /// Of the log of the venue at a place among the logs.
    OfVenue(usize, u64),
}

/// What the logs of a day say of a sentence.
#[derive(Clone, Copy, Debug, PartialEq, Eq)]
pub enum SentenceVerdict {
    Holds,
    /// This line breaks it.
    BrokenAt(Place),
    /// It can't be judged, as it isn't known which legs were released.
    Unjudged,
}

/// A line of the log of the desk's lines.
fn of_desk(line: Option<u64>) -> Option<Place>
    ensures { result ≡ option_map OfDesk line }
{
    match line {
        Some(line) => Some(Place::OfDesk(line)),
        None => None,
    }
}

/// Where the first sweep was placed whose parts aren't its legs.
fn uneven_line(desk: &DeskDay, venues: &[VenueDay]) -> Option<u64>
    ensures { result ≡ uneven_line desk.now venues.now }
{
    desk.placed_line(first_uneven(venues, desk.sweeps()))
}

/// Where a log of a venue breaks a sentence.
fn venue_place(
    alloc: Global,
    desk: &DeskDay,
    venues: &[VenueDay],
    sentence: Sentence,
) -> Result<Option<Place>, AllocError>
    ensures { IfOk result (λ place. place ≡ venue_place desk.now sentence venues.now) }
{
    first_place(alloc, desk, venues, sentence)
}

/// Shares: where the sums of a report don't add up, or those of a sweep.
fn shares_place(
    alloc: Global,
    desk: &DeskDay,
    venues: &[VenueDay],
) -> Result<Option<Place>, AllocError>
    ensures { IfOk result (λ place. place ≡ shares_place desk.now venues.now) }
{
    match venue_place(alloc, desk, venues, Sentence::Shares)? {
        Some(place) => Ok(Some(place)),
        None => Ok(of_desk(uneven_line(desk, venues))),
    }
}

fn verdict_at(place: Option<Place>) -> SentenceVerdict
    ensures { result ≡ verdict_at place }
{
    match place {
        Some(place) => SentenceVerdict::BrokenAt(place),
        None => SentenceVerdict::Holds,
    }
}

/// What can't be judged where it isn't known which legs were released.
fn unless_unfit(desk: &DeskDay, said: SentenceVerdict) -> SentenceVerdict
    ensures { result ≡ unless_unfit desk.now said }
{
    match desk.unfit() {
        Some(_) => SentenceVerdict::Unjudged,
        None => said,
    }
}

/// What the logs of a desk's lines and of its venues say of a sentence. The venues' logs are in the order of the names
/// that the desk's was read with.
pub fn judge(
    alloc: Global,
    desk: &DeskDay,
    venues: &[VenueDay],
    sentence: Sentence,
) -> Result<SentenceVerdict, AllocError>
    ensures { IfOk result (λ said. said ≡ judged desk.now venues.now sentence) }
{
    match sentence {
        Sentence::Placed => Ok(verdict_at(of_desk(desk.unfit()))),
        Sentence::Order => {
            let place = venue_place(alloc, desk, venues, sentence)?;
            Ok(unless_unfit(desk, verdict_at(place)))
        }
        Sentence::Shares => {
            let place = shares_place(alloc, desk, venues)?;
            Ok(unless_unfit(desk, verdict_at(place)))
        }
        _ => Ok(verdict_at(venue_place(alloc, desk, venues, sentence)?)),
    }
}
