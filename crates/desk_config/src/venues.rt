//! The venues of a file.

ghost use Rattle.std.specs.Prelude.{◌≡◌, ◌<◌, ◌≤◌, [], length, position, IfOk, IfSome};
ghost use Rattle.desk_config.specs.Apart.{AreVenues};
ghost use Rattle.desk_config.specs.Venues.{AnswersVenues, apart, is_among, is_backup, is_dialled_at, is_first};
ghost use Rattle.desk_config.specs.Venues.{same_address, same_name, same_session, share_address, shares_any};
ghost use Rattle.desk_config.specs.Venues.{named, next_venue, result_map, shares_backup, shares_first, venue_items, venues_from, venues_of};
ghost use Rattle.toml.specs.View.{view, array_view};

use crate::address::Address;
use crate::endpoint::Endpoint;
use crate::fault::{ConfigFault, Fault, KeyFault};
use crate::found::Found;
use crate::from_value::FromValue;
use crate::key::Key;
use crate::place::Place;
use crate::venue::Venue;
use crate::venue_keys::venue_in;
use desk_words::VenueName;
use fix_tags::CompId;
use std::alloc::Global;
use toml::Value;
use toml::value::Array;

/// The most venues.
const MAX_VENUES: usize = 16;

fn same_address(one: &Address, other: &Address) -> bool
    ensures { result ≡ same_address one.now other.now }
{
    one.host.as_bytes() == other.host.as_bytes() && one.port.get() == other.port.get()
}

fn is_backup(address: &Address, backup: &Option<Address>) -> bool
    ensures { result ≡ is_backup address.now backup.now }
{
    match backup {
        Some(backup) => same_address(address, backup),
        None => false,
    }
}

fn is_first(address: &Address, endpoint: &Endpoint) -> bool
    ensures { result ≡ is_first address.now endpoint.now }
{
    match endpoint {
        Endpoint::At(first) => same_address(address, first),
        Endpoint::Simulated(_) => false,
    }
}

fn is_among(address: &Address, backups: &[Option<Address>]) -> bool
    ensures { result ≡ is_among address.now backups.now }
{
    backups.iter().any(|backup| is_backup(address, backup))
}

/// Whether a venue is dialled at an address, first or as one of its backups.
fn is_dialled_at(address: &Address, venue: &Venue) -> bool
    ensures { result ≡ is_dialled_at address.now venue.now }
{
    is_first(address, &venue.endpoint) || is_among(address, venue.backups.as_slice())
}

/// Whether a venue's first address is one of another's.
fn shares_first(one: &Venue, other: &Venue) -> bool
    ensures { result ≡ shares_first one.now other.now }
{
    match &one.endpoint {
        Endpoint::At(address) => is_dialled_at(address, other),
        Endpoint::Simulated(_) => false,
    }
}

fn shares_backup(other: &Venue, backup: &Option<Address>) -> bool
    ensures { result ≡ shares_backup other.now backup.now }
{
    match backup {
        Some(address) => is_dialled_at(address, other),
        None => false,
    }
}

fn shares_any(other: &Venue, backups: &[Option<Address>]) -> bool
    ensures { result ≡ shares_any other.now backups.now }
{
    backups.iter().any(|backup| shares_backup(other, backup))
}

/// Whether two venues have an address in common.
#[tactic(auto, unfolding(crate::specs::Venues::share_address))]
fn share_address(one: &Venue, other: &Venue) -> bool
    ensures { result ≡ share_address one.now other.now }
{
    shares_first(one, other) || shares_any(other, one.backups.as_slice())
}

/// Whether two venues have the same name.
fn same_name(one: &Venue, other: &Venue) -> bool
    ensures { result ≡ same_name one.now other.now }
{
    one.name.as_bytes() == other.name.as_bytes()
}

/// Whether two venues could be one session: an address in common, and the same comp ids.
fn same_session(one: &Venue, other: &Venue) -> bool
    ensures { result ≡ same_session one.now other.now }
{
    share_address(one, other)
        && one.target.as_bytes() == other.target.as_bytes()
        && one.sender.as_bytes() == other.sender.as_bytes()
}

/// The first of the earlier venues that has a venue's name.
fn first_of_name(earlier: &[Venue], venue: &Venue) -> Option<usize>
    ensures value { result ≡ position (λ other. same_name other venue.now) earlier.now }
    ensures within { IfSome result (λ at. at < length earlier.now) }
{
    earlier.iter().position(|other| same_name(other, venue))
}

/// The first of the earlier venues that would be one session with a venue.
fn first_of_session(earlier: &[Venue], venue: &Venue) -> Option<usize>
    ensures value { result ≡ position (λ other. same_session other venue.now) earlier.now }
    ensures within { IfSome result (λ at. at < length earlier.now) }
{
    earlier.iter().position(|other| same_session(other, venue))
}

/// That no earlier venue has the name of a venue, nor its session.
#[tactic(auto, unfolding(crate::specs::Venues::apart))]
fn apart(earlier: &[Venue], venue: &Venue) -> Result<(), Fault>
    ensures { result ≡ apart earlier.now venue.now }
{
    match (
        first_of_name(earlier, venue),
        first_of_session(earlier, venue),
    ) {
        (Some(at), _) => Err(Fault::SameName(at + 1)),
        (None, Some(at)) => Err(Fault::SameSession(at + 1)),
        (None, None) => Ok(()),
    }
}

/// The name of a venue, where its table has one.
fn named(table: &Value) -> Option<VenueName>
    ensures { result ≡ named (view table.now) }
{
    VenueName::from_value(table.get(Key::Name.name())?)
}

/// What the next `[[venue]]` says.
#[tactic(auto, unfolding(crate::specs::Venues::next_venue))]
fn next_venue(desk: &Option<CompId>, earlier: &[Venue], table: &Value) -> Result<Venue, KeyFault>
    requires { length earlier.now < 16 }
    ensures { result ≡ next_venue desk.now earlier.now (view table.now) }
{
    let fault = match venue_in(desk, table) {
        Ok(venue) => match apart(earlier, &venue) {
            Ok(()) => return Ok(venue),
            Err(fault) => fault,
        },
        Err(fault) => fault,
    };
    Err(KeyFault {
        place: Place::Venue {
            number: earlier.len() + 1,
            name: named(table),
        },
        fault,
    })
}

/// The array of the tables `[[venue]]`, which has 1 to 16 items.
#[tactic(auto, using(crate::proofs::Views::items_count_view), unfolding(crate::specs::Venues::venue_items))]
fn venue_items(file: &Value) -> Result<&Array, Fault>
    ensures value { venue_items (view file.now) ≡ (result_map (λ items. array_view items.now) result) }
    ensures few { IfOk result (λ items. length items.now.items ≤ 16) }
{
    let Some(value) = file.get(Key::Venue.name()) else {
        return Err(Fault::Missing(Key::Venue));
    };
    match value.as_array() {
        Some(items) if !items.is_empty() && items.len() <= MAX_VENUES => Ok(items),
        _ => Err(Fault::Bad {
            key: Key::Venue,
            found: Found::of(value),
        }),
    }
}

/// What the tables `[[venue]]` say, where the desk has this comp id.
#[tactic(auto, using(crate::proofs::VenuesRead::venue_steps), unfolding(crate::specs::Venues::venues_from))]
fn each_venue(
    alloc: Global,
    desk: &Option<CompId>,
    tables: &Array,
) -> Result<Vec<Venue>, ConfigFault>
    requires { length tables.now.items ≤ 16 }
    ensures { AnswersVenues (venues_from desk.now [] (array_view tables.now)) result }
{
    let mut venues = Vec::new(alloc);
    for table in tables {
        match next_venue(desk, venues.as_slice(), table) {
            Ok(venue) => venues.push(venue)?,
            Err(fault) => return Err(ConfigFault::Key(fault)),
        }
    }
    Ok(venues)
}

/// What the venues of a file say, where the desk has this comp id.
#[tactic(auto, using(crate::proofs::Apart::answered_apart), unfolding(crate::specs::Venues::venues_of))]
pub(crate) fn read_venues(
    alloc: Global,
    desk: &Option<CompId>,
    file: &Value,
) -> Result<Vec<Venue>, ConfigFault>
    ensures says { AnswersVenues (venues_of desk.now (view file.now)) result }
    ensures apart { IfOk result (λ venues. AreVenues venues.items) }
{
    match venue_items(file) {
        Ok(tables) => each_venue(alloc, desk, tables),
        Err(fault) => Err(ConfigFault::Key(KeyFault {
            place: Place::File,
            fault,
        })),
    }
}
