//! The two ends of a venue's session.

ghost use Rattle.std.specs.Prelude.{◌≡◌};
ghost use Rattle.desk_venues.specs.Venues.{end_of, desk_end, exchange_end};

use desk_config::{SessionTerms, Venue};
use fix_tags::{CompId, Config};

/// An end that has this name, of a session on these terms.
fn end_of(me: &CompId, peer: &CompId, terms: &SessionTerms) -> Config
    ensures { result ≡ end_of me.now peer.now terms.now }
{
    let me = me.clone().unwrap();
    let peer = peer.clone().unwrap();
    let config = Config::new(me, peer, terms.heartbeat.get(), terms.max_number.get()).unwrap();
    if terms.next_expected {
        config.with_next()
    } else {
        config
    }
}

/// The desk's end of the session with a venue.
pub fn desk_end(venue: &Venue) -> Config
    ensures { result ≡ desk_end venue.now }
{
    end_of(&venue.sender, &venue.target, &venue.session)
}

/// The exchange's end of it.
pub fn exchange_end(venue: &Venue) -> Config
    ensures { result ≡ exchange_end venue.now }
{
    end_of(&venue.target, &venue.sender, &venue.session)
}
