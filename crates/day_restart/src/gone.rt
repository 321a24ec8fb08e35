//! A venue's journal goes on behind the lines of a life before.

ghost use Rattle.std.specs.Prelude.{◌≡◌, true};
ghost use Rattle.fix_tags.specs.Stamp.{StampParts};
ghost use Rattle.kept_link.specs.Telling.{TellsLine};
ghost use Rattle.day_restart.specs.DayJournal.{gone_line};

use clock::{Clock, UtcClock};
use journal_words::Act;
use kept_link::Telling;
use std::time;

/// Tells that the connection of the life before is gone, as its process is, and says whether there was memory for that.
/// It is kept with what is told next, and so before that goes out.
pub(crate) fn tell_gone<J: Telling, R: time::Clock>(rt: &R, journal: &mut J) -> bool
    ensures { result ≡ true
        → (stamp : StampParts) × TellsLine (gone_line stamp) (J.told journal.old) (J.told journal.new) }
{
    let mut clock = UtcClock::new(rt);
    let stamp = clock.now();
    journal.tell_act(&stamp, Act::Broke).is_ok()
}
