//! The events of one venue.

ghost use Rattle.std.specs.Prelude.{◌≡◌, ◌≤◌, ◌∷◌, []};
ghost use Rattle.schedule.specs.Script.{count_event, event_of, venue_event};

use crate::word::{count_word, px_word, shares_word, venue_word};
use leg::VenueId;
use schedule::{Act, Event, FrameNumber};
use text_pieces::Pieces;

/// The event of a venue alone.
fn venue_event(name: &str, venue: VenueId) -> Option<Event>
    ensures { result ≡ venue_event name.now venue }
{
    match name {
        "up" => Some(Event::GateUp(venue)),
        "down" => Some(Event::GateDown(venue)),
        "drop" => Some(Event::Drop(venue)),
        "take" => Some(Event::Take(venue)),
        "connect" => Some(Event::Connect(venue)),
        "break" => Some(Event::Break(venue)),
        "xbreak" => Some(Event::ExchangeBreak(venue)),
        "test" => Some(Event::Act {
            venue,
            act: Act::Test,
        }),
        "quiet" => Some(Event::Quiet(venue)),
        "silent" => Some(Event::Silent(venue)),
        "close" => Some(Event::Close(venue)),
        "abandon" => Some(Event::Abandon(venue)),
        _ => None,
    }
}

/// The event of a venue and a frame, or an order.
fn count_event(name: &str, venue: VenueId, count: FrameNumber) -> Option<Event>
    ensures { result ≡ count_event name.now venue count }
{
    match name {
        "to" => Some(Event::ToExchange {
            venue,
            frame: count,
        }),
        "from" => Some(Event::ToDispatcher {
            venue,
            frame: count,
        }),
        "cancel" => Some(Event::Act {
            venue,
            act: Act::CancelRest { order: count },
        }),
        "reject" => Some(Event::Act {
            venue,
            act: Act::Reject { order: count },
        }),
        _ => None,
    }
}

/// A trade of an order is undone.
fn bust(venues: u8, name: &str, venue: &[u8], order: &[u8], trade: &[u8]) -> Option<Event>
    requires low { 1 ≤ venues }
    requires high { venues ≤ 16 }
    ensures { result ≡ event_of venues name.now (venue.now ∷ order.now ∷ trade.now ∷ []) }
{
    if name != "bust" {
        return None;
    }
    let venue = venue_word(venues, venue)?;
    let order = count_word(order)?;
    let trade = count_word(trade)?;
    Some(Event::Act {
        venue,
        act: Act::Bust { order, trade },
    })
}

/// An order is traded.
fn trade(
    venues: u8,
    name: &str,
    venue: &[u8],
    order: &[u8],
    shares: &[u8],
    px: &[u8],
) -> Option<Event>
    requires low { 1 ≤ venues }
    requires high { venues ≤ 16 }
    ensures { result ≡ event_of venues name.now (venue.now ∷ order.now ∷ shares.now ∷ px.now ∷ []) }
{
    if name != "trade" {
        return None;
    }
    let venue = venue_word(venues, venue)?;
    let order = count_word(order)?;
    let shares = shares_word(shares)?;
    let px = px_word(px)?;
    Some(Event::Act {
        venue,
        act: Act::Trade { order, shares, px },
    })
}

/// The event of this name, and of the words behind it, of which the first is a venue.
pub(crate) fn read_call(venues: u8, name: &str, words: &mut Pieces<'_>) -> Option<Event>
    requires low { 1 ≤ venues }
    requires high { venues ≤ 16 }
    ensures { result ≡ event_of venues name.now words.old }
{
    let venue = words.next()?;
    let Some(second) = words.next() else {
        return venue_event(name, venue_word(venues, venue)?);
    };
    let Some(third) = words.next() else {
        let venue = venue_word(venues, venue)?;
        return count_event(name, venue, count_word(second)?);
    };
    let Some(fourth) = words.next() else {
        return bust(venues, name, venue, second, third);
    };
    match words.next() {
        None => trade(venues, name, venue, second, third, fourth),
        Some(_) => None,
    }
}
