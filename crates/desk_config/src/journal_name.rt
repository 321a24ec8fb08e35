//! The names of a day's journals.

ghost use Rattle.std.specs.Prelude.{◌≡◌, ◌<◌, length, position, IfSome};
ghost use Rattle.desk_config.specs.JournalName.{apart_from_desk, is_called_desk};

use crate::fault::Fault;
use crate::journal::JournalTerms;
use crate::venue::Venue;

/// The first venue that is called as the desk's journal is.
fn called_desk(venues: &[Venue]) -> Option<usize>
    ensures value { result ≡ position is_called_desk venues.now }
    ensures within { IfSome result (λ at. at < length venues.now) }
{
    venues
        .iter()
        .position(|venue| venue.name.as_bytes() == b"desk".as_slice())
}

/// That no venue's journal would be the desk's, where journals are kept.
#[tactic(auto, unfolding(crate::specs::JournalName::apart_from_desk))]
pub(crate) fn apart_from_desk(journal: &Option<JournalTerms>, venues: &[Venue]) -> Result<(), Fault>
    ensures { result ≡ apart_from_desk journal.now venues.now }
{
    match (journal, called_desk(venues)) {
        (Some(_), Some(at)) => Err(Fault::DeskName(at + 1)),
        _ => Ok(()),
    }
}
