//! What a worker tells its journal, which waits until the journal has room for it.

ghost use Rattle.std.specs.Prelude.{[]};
ghost use Rattle.fix_text.specs.FrameFields.{fields_in};
ghost use Rattle.fix_text.specs.Text.{fields_text};
ghost use Rattle.link.specs.Traffic.{Tells, Stays};
ghost use Rattle.journal_words.specs.Deed.{timed};
ghost use Rattle.journal_words.specs.Deed.DeedSaid.{Acts, Hears, OfLeg};
ghost use Rattle.journal_words.specs.Words.{deed_line};
ghost use Rattle.kept_link.specs.Telling.{IsAllKept, TellsLine, TellsLines};

use fix_tags::Stamp;
use fix_text::Frame;
use journal_words::{Act, LegAct};
use kept_link::{Door, Telling};
use leg::PlacedLeg;
use link::Link;
use std::sync::Wait;
use std::time::Duration;

/// How many milliseconds pass before a journal that had no room is asked again, unless the link has something to tell.
const WAIT_MILLIS: u64 = 100;

/// Waits before the journal is asked again. Nothing goes over the link meanwhile.
fn wait<K: Link>(door: &mut Door<K>)
    ensures wire { Tells door.old.wire door.new.wire Stays }
{
    door.rest(Duration::from_millis(WAIT_MILLIS));
}

/// Tells that the session was called.
pub(crate) fn tell_act<K: Link, J: Telling>(
    rt: &impl Wait,
    door: &mut Door<K>,
    journal: &mut J,
    stamp: &Stamp,
    act: Act,
)
    ensures told { TellsLine (deed_line (timed stamp.now (Acts act))) (J.told journal.old) (J.told journal.new) }
    ensures wire { Tells door.old.wire door.new.wire Stays }
{
    for _ in rt.forever() {
        match journal.tell_act(stamp, act) {
            Ok(()) => return,
            Err(_) => wait(door),
        }
    }
    unreachable!()
}

/// Tells what became of a leg.
pub(crate) fn tell_leg<K: Link, J: Telling>(
    rt: &impl Wait,
    door: &mut Door<K>,
    journal: &mut J,
    stamp: &Stamp,
    act: LegAct,
    placed: &PlacedLeg,
)
    ensures told { TellsLine (deed_line (timed stamp.now (OfLeg act placed.now))) (J.told journal.old)
        (J.told journal.new) }
    ensures wire { Tells door.old.wire door.new.wire Stays }
{
    for _ in rt.forever() {
        match journal.tell_leg(stamp, act, placed) {
            Ok(()) => return,
            Err(_) => wait(door),
        }
    }
    unreachable!()
}

/// Tells that a message came.
pub(crate) fn tell_heard<K: Link, J: Telling>(
    rt: &impl Wait,
    door: &mut Door<K>,
    journal: &mut J,
    stamp: &Stamp,
    frame: &Frame<'_>,
)
    ensures told { TellsLine (deed_line (timed stamp.now (Hears (fields_text (fields_in frame.now)))))
        (J.told journal.old) (J.told journal.new) }
    ensures wire { Tells door.old.wire door.new.wire Stays }
{
    for _ in rt.forever() {
        match journal.tell_heard(stamp, frame) {
            Ok(()) => return,
            Err(_) => wait(door),
        }
    }
    unreachable!()
}

/// Keeps all that was told.
pub(crate) fn keep<K: Link, J: Telling>(rt: &impl Wait, door: &mut Door<K>, journal: &mut J)
    ensures kept { IsAllKept (J.told journal.new) }
    ensures told { TellsLines [] (J.told journal.old) (J.told journal.new) }
    ensures wire { Tells door.old.wire door.new.wire Stays }
{
    for _ in rt.forever() {
        match journal.keep() {
            Ok(()) => return,
            Err(_) => wait(door),
        }
    }
    unreachable!()
}
