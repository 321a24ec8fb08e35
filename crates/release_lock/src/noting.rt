//! A sweep that was placed is told to the desk's journal, and kept there.

ghost use Rattle.std.specs.Prelude.{[], ◌∷◌};
ghost use Rattle.fix_tags.specs.Stamp.{IsStamp};
ghost use Rattle.journal_words.specs.Desk.{desk_text};
ghost use Rattle.journal_words.specs.Desk.DeskSaid.{Places};
ghost use Rattle.kept_link.specs.Telling.{IsAllKept, TellsLine, TellsLines};

use crate::asked::Asked;
use journal_words::DeskDeed;
use kept_link::Telling;
use std::sync::Wait;
use std::thread::yield_now;

/// Tells that a sweep was placed under this number. Where the journal has no room it is asked again.
fn tell_placed<J: Telling>(rt: &impl Wait, journal: &mut J, number: u64, asked: &Asked<'_>)
    ensures { TellsLine (desk_text asked.now.stamp (Places number asked.now.line.now)) (J.told journal.old)
        (J.told journal.new) }
{
    for _ in rt.forever() {
        match journal.tell_desk(&asked.stamp, &DeskDeed::Place(number, asked.line)) {
            Ok(()) => return,
            Err(_) => yield_now(),
        }
    }
    unreachable!()
}

/// Keeps all that was told.
fn keep<J: Telling>(rt: &impl Wait, journal: &mut J)
    ensures kept { IsAllKept (J.told journal.new) }
    ensures told { TellsLines [] (J.told journal.old) (J.told journal.new) }
{
    for _ in rt.forever() {
        match journal.keep() {
            Ok(()) => return,
            Err(_) => yield_now(),
        }
    }
    unreachable!()
}

/// Tells that a sweep was placed under this number, and keeps it. A stamp is in its range, so the line reads back.
pub(crate) fn note_placed<J: Telling>(
    rt: &impl Wait,
    journal: &mut J,
    number: u64,
    asked: &Asked<'_>,
)
    ensures within { IsStamp asked.now.stamp }
    ensures told { TellsLines (desk_text asked.now.stamp (Places number asked.now.line.now) ∷ []) (J.told journal.old)
        (J.told journal.new) }
    ensures kept { IsAllKept (J.told journal.new) }
{
    // The contract learns the stamp's range where the stamp is read.
    let _ = asked.stamp.year();
    tell_placed(rt, journal, number, asked);
    keep(rt, journal);
}
