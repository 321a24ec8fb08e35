//! The venues of a day, as a desk's file would have them.

ghost use Rattle.std.specs.Prelude.{◌≡◌, IfSome};
ghost use Rattle.live_load.specs.Config.{session, venue_of, venues_to};

use desk_config::{Endpoint, FillShares, Heartbeat, NumberLimit, SessionTerms, Venue};
use desk_words::VenueName;
use dialect::AnyDialect;
use fix_tags::CompId;
use order_limits::LegLimits;
use std::alloc::Global;
use venue_words::{Dress, VenueWords};

/// How many shares of each order an exchange trades.
const FILL: u64 = 6;

/// How often an end shows a sign of life, in seconds.
const HEARTBEAT: u64 = 30;

/// The number that no message of a session has.
const MAX_NUMBER: u64 = 999_999_999;

/// How each session is held.
fn session() -> SessionTerms
    ensures { result ≡ session }
{
    SessionTerms {
        heartbeat: Heartbeat::of(HEARTBEAT),
        next_expected: false,
        reopen: false,
        max_number: NumberLimit::of(MAX_NUMBER),
    }
}

/// The venue of a number: `V` and the number, with a simulated exchange. None where memory is refused.
#[tactic(auto, using(crate::proofs::Names::named))]
fn venue_of(alloc: Global, number: u8) -> Option<Venue>
    ensures { IfSome result (λ venue. venue ≡ venue_of number) }
{
    let text = format!(in alloc; "V{number}").ok()?;
    Some(Venue {
        name: VenueName::new(text.as_bytes())?,
        endpoint: Endpoint::Simulated(FillShares::of(FILL)),
        backups: [None, None, None],
        target: CompId::new(b"B").unwrap(),
        sender: CompId::new(b"A").unwrap(),
        session: session(),
        words: VenueWords::Preset(AnyDialect::Plain),
        dress: Dress::none(),
        password_file: None,
        limits: LegLimits::none(),
    })
}

/// So many venues, in the order of their numbers. None where memory is refused.
pub fn venues_of(alloc: Global, venues: u8) -> Option<Vec<Venue>>
    ensures { IfSome result (λ all. all.items ≡ venues_to venues) }
{
    let mut all = Vec::new(alloc);
    for number in 0..venues {
        all.push(venue_of(alloc, number)?).ok()?;
    }
    Some(all)
}
