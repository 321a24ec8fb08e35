//! Deeds are done again.

ghost use Rattle.std.specs.Prelude.{◌≡◌, ◌≤◌, ◌+◌, length, IfOk, OnOk};
ghost use Rattle.replay.specs.declared.deed.Deed.TheVariants as deed;
ghost use Rattle.replay.specs.declared.mark.Mark.{Mark as AMark};
ghost use Rattle.replay.specs.Redoing.{redo, redo_all, new_standing, standing_by, stood};

use crate::deed::Deed;
use crate::mark::Mark;
use dialect::Dialect;
use leg::PlacedLeg;
use schedule::FrameNumber;
use std::alloc::AllocError;
use venue_replay::{Sending, Venue};

/// The dispatcher's side of a venue is made again: from its opening, by these deeds. The exchange and its frames are as
/// they were. The only refusal is out of memory.
pub(crate) fn stand_again<D: Dialect + Drop>(
    venue: &mut Venue<D>,
    next: bool,
    max_number: u64,
    deeds: &[Deed],
) -> Result<Mark, AllocError>
    requires least { 16 ≤ max_number }
    requires most { max_number ≤ 999999999 }
    requires few { length deeds.now ≤ 9223372036854775807 }
    ensures venue { OnOk result (venue.new ≡ stood venue.old
        (redo_all venue.old.from_exchange (new_standing max_number next) deeds.now)) }
    ensures mark { IfOk result (λ mark. standing_by mark venue.new
        ≡ redo_all venue.old.from_exchange (new_standing max_number next) deeds.now) }
{
    venue.begin_again(next, max_number);
    let mut mark = Mark {
        started: 0,
        since: 0,
        is_shut: false,
    };
    for deed in deeds {
        redo(venue, &mut mark, deed)?;
    }
    Ok(mark)
}

/// A deed is done again. The only refusal is out of memory.
fn redo<D: Dialect + Drop>(
    venue: &mut Venue<D>,
    mark: &mut Mark,
    deed: &Deed,
) -> Result<(), AllocError>
    requires few { mark.old.since ≤ 9223372036854775807 }
    ensures venue { OnOk result (venue.new ≡ stood venue.old
        (redo venue.old.from_exchange (standing_by mark.old venue.old) deed.now)) }
    ensures mark { OnOk result (standing_by mark.new venue.new
        ≡ redo venue.old.from_exchange (standing_by mark.old venue.old) deed.now) }
    ensures few { OnOk result (mark.new.since ≤ mark.old.since + 1) }
{
    match deed {
        Deed::Nothing => Ok(()),
        Deed::Took(placed) => take_again(venue, mark, placed),
        Deed::Dropped => {
            mark.since += 1;
            Ok(())
        }
        Deed::Connected => {
            venue.connect()?;
            Ok(())
        }
        Deed::Quieted => {
            venue.quiet()?;
            Ok(())
        }
        Deed::Silenced => {
            let _ = venue.silent()?;
            Ok(())
        }
        Deed::Closed => close_again(venue, mark),
        Deed::Abandoned => {
            venue.abandon();
            mark.is_shut = true;
            Ok(())
        }
        Deed::Heard(frame) => hear_again(venue, *frame),
        Deed::Broke => {
            venue.break_off();
            Ok(())
        }
        Deed::Started(left) => {
            venue.break_off();
            mark.started = *left;
            mark.since = 0;
            Ok(())
        }
    }
}

/// A leg is handed to the session again.
fn take_again<D: Dialect + Drop>(
    venue: &mut Venue<D>,
    mark: &mut Mark,
    placed: &PlacedLeg,
) -> Result<(), AllocError>
    requires few { mark.old.since ≤ 9223372036854775807 }
    ensures venue { OnOk result (venue.new ≡ stood venue.old
        (redo venue.old.from_exchange (standing_by mark.old venue.old) (deed.Took placed.now))) }
    ensures mark { OnOk result (standing_by mark.new venue.new
        ≡ redo venue.old.from_exchange (standing_by mark.old venue.old) (deed.Took placed.now)) }
    ensures few { OnOk result (mark.new.since ≤ mark.old.since + 1) }
{
    match venue.send(placed.ordinal, &placed.leg)? {
        Sending::Sent => mark.since += 1,
        Sending::NumbersSpent => mark.since += 1,
        Sending::Refused(_) => {}
    }
    Ok(())
}

/// The session is called to close again.
fn close_again<D: Dialect + Drop>(venue: &mut Venue<D>, mark: &mut Mark) -> Result<(), AllocError>
    ensures venue { OnOk result (venue.new ≡ stood venue.old
        (redo venue.old.from_exchange (standing_by mark.old venue.old) deed.Closed)) }
    ensures mark { OnOk result (standing_by mark.new venue.new
        ≡ redo venue.old.from_exchange (standing_by mark.old venue.old) deed.Closed) }
    ensures few { OnOk result (mark.new.since ≤ mark.old.since + 1) }
{
    if venue.close()?.is_none() {
        mark.is_shut = true;
    }
    Ok(())
}

/// A frame comes to the session again.
fn hear_again<D: Dialect + Drop>(venue: &mut Venue<D>, frame: FrameNumber) -> Result<(), AllocError>
    ensures venue { OnOk result ((mark : AMark) → venue.new ≡ stood venue.old
        (redo venue.old.from_exchange (standing_by mark venue.old) (deed.Heard frame))) }
    ensures mark { OnOk result ((mark : AMark) → standing_by mark venue.new
        ≡ redo venue.old.from_exchange (standing_by mark venue.old) (deed.Heard frame)) }
{
    if let Some(inbound) = venue.hear(frame)? {
        venue.confirm(inbound.note)?;
    }
    Ok(())
}
