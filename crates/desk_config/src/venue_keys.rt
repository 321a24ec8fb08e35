//! The keys of a `[[venue]]`.

ghost use Rattle.std.specs.Prelude.{◌≡◌};
ghost use Rattle.desk_config.specs.Venue.{endpoint_in, sender_in, session_in, venue_in};
ghost use Rattle.toml.specs.View.{view};

use crate::address_keys::{Dialled, dialled_in};
use crate::dress_keys::dress_in;
use crate::endpoint::{Endpoint, FillShares, Where};
use crate::fault::Fault;
use crate::key::Key;
use crate::keys::Keys;
use crate::limit_keys::leg_limits_in;
use crate::session_terms::{Heartbeat, NumberLimit, SessionTerms};
use crate::value_at::{checked, needed, value_at};
use crate::venue::Venue;
use crate::word_keys::words_in;
use fix_tags::{CompId, MAX_MESSAGE_NUMBER};
use leg::MAX_SHARES;
use toml::Value;

/// The heartbeat interval where the file doesn't say one, in seconds.
const HEARTBEAT: u64 = 30;

/// The number that a session's numbers end before where the file doesn't say one.
const NUMBER_LIMIT: u64 = MAX_MESSAGE_NUMBER + 1;

/// The exchange of a place: what a simulated one fills of each order is all of it where the file doesn't say.
#[tactic(auto, unfolding(crate::specs::Venue::endpoint_in))]
fn endpoint_in(place: Where, table: &Value) -> Result<Endpoint, Fault>
    ensures { result ≡ endpoint_in place (view table.now) }
{
    let fill: Option<FillShares> = value_at(table, Key::Fill)?;
    match (place, fill) {
        (Where::At(address), None) => Ok(Endpoint::At(address)),
        (Where::At(_), Some(_)) => Err(Fault::OnlySimulated),
        (Where::Simulated, fill) => {
            let shares = fill.unwrap_or(FillShares::of(MAX_SHARES));
            Ok(Endpoint::Simulated(shares))
        }
    }
}

/// The same comp id once more.
fn copied(id: &Option<CompId>) -> Option<CompId>
    ensures { result ≡ id.now }
{
    CompId::new(id.as_ref()?.as_bytes())
}

/// The desk's comp id at a venue: the venue's own, or the desk's.
#[tactic(auto, unfolding(crate::specs::Venue::sender_in))]
fn sender_in(desk: &Option<CompId>, table: &Value) -> Result<CompId, Fault>
    ensures { result ≡ sender_in desk.now (view table.now) }
{
    match value_at(table, Key::Sender)? {
        Some(own) => Ok(own),
        None => copied(desk).ok_or(Fault::Missing(Key::Sender)),
    }
}

#[tactic(auto, unfolding(crate::specs::Venue::session_in))]
fn session_in(table: &Value) -> Result<SessionTerms, Fault>
    ensures { result ≡ session_in (view table.now) }
{
    let heartbeat = value_at(table, Key::Heartbeat)?.unwrap_or(Heartbeat::of(HEARTBEAT));
    let next_expected = value_at(table, Key::NextExpected)?.unwrap_or(false);
    let reopen = value_at(table, Key::Reopen)?.unwrap_or(false);
    let max_number = value_at(table, Key::MaxNumber)?.unwrap_or(NumberLimit::of(NUMBER_LIMIT));
    Ok(SessionTerms {
        heartbeat,
        next_expected,
        reopen,
        max_number,
    })
}

/// What a `[[venue]]` says, where the desk has this comp id.
#[tactic(auto, unfolding(crate::specs::Venue::venue_in))]
pub(crate) fn venue_in(desk: &Option<CompId>, table: &Value) -> Result<Venue, Fault>
    ensures { result ≡ venue_in desk.now (view table.now) }
{
    checked(table, Keys::Venue)?;
    let name = needed(table, Key::Name)?;
    let Dialled { place, backups } = dialled_in(table)?;
    let endpoint = endpoint_in(place, table)?;
    let target = needed(table, Key::Target)?;
    let sender = sender_in(desk, table)?;
    let words = words_in(table)?;
    let dress = dress_in(&words, table)?;
    let password_file = value_at(table, Key::PasswordFile)?;
    let session = session_in(table)?;
    let limits = leg_limits_in(table)?;
    Ok(Venue {
        name,
        endpoint,
        backups,
        target,
        sender,
        session,
        words,
        dress,
        password_file,
        limits,
    })
}
