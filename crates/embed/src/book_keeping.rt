//! What desk, sessions and book hand one another.

ghost use Rattle.std.specs.Prelude.{◌≡◌, ◌<◌, [], length, map, IfOk, IfSome, OnOk, OnErr};
ghost use Rattle.leg.specs.Answering.{Answers};
ghost use Rattle.session_core.specs.Receiving.{confirm};
ghost use Rattle.share_ledger.specs.Book.{apply};
ghost use Rattle.sweep_release.specs.Desk.{gate_up, gate_down, take, placed};
ghost use Rattle.embed.specs.Keeping.{withdraw_each, answered, booked, confirmed, Sends, drop_legs, follow_in};
ghost use Rattle.embed.specs.Line.{wording_of};

use crate::line::Line;
use dialect::Note;
use fix_tags::Stamp;
use leg::{LegId, PlacedLeg, VenueId};
use session_core::{Ended, Phase, Session, SessionFault, Step};
use share_ledger::{Applied, Book, BookFault};
use std::alloc::{AllocError, Global};
use sweep_release::{Desk, Gate, GateFault};

/// The venue at a place, if the desk has it.
pub fn venue_at(desk: &Desk, place: usize) -> Option<VenueId>
    ensures there { IfSome result (λ venue. venue < length desk.now.desk.venues) }
    ensures value { IfSome result (λ venue. venue ≡ place) }
{
    if place >= desk.venues() {
        return None;
    }
    match VenueId::new(place as u8) {
        Ok(venue) => Some(venue),
        Err(_) => None,
    }
}

/// The book is to withdraw each of these legs. One that it has as moved stays so.
pub fn withdraw_each(book: &mut Book, ids: &[LegId])
    ensures { book.new ≡ withdraw_each ids.now book.old }
{
    for id in ids {
        let _ = book.withdraw(*id);
    }
}

/// What a step of a session says, and what the book answered to its note.
#[derive(Drop)]
pub struct Booked {
    pub withdrawn: Vec<LegId>,
    pub frames: Vec<Vec<u8>>,
    pub note: Option<(Note, Applied)>,
    pub ended: Option<Ended>,
}

/// The book takes a note of a venue's session, and only then is it confirmed.
fn take_note(
    book: &mut Book,
    session: &mut Session,
    venue: VenueId,
    note: &Note,
) -> Result<Applied, BookFault>
    ensures book { Answers BookFault.OutOfMemory book.old (apply book.old venue note.now) result book.new }
    ensures ok { OnOk result (session.new ≡ confirm session.old) }
    ensures err { OnErr result (session.new ≡ session.old) }
{
    let applied = book.apply(venue, note)?;
    session.confirm();
    Ok(applied)
}

/// The book does what a step of a venue's session says: it withdraws legs, and then takes the note, which is confirmed
/// once it took it. The only refusal is out of memory, after the legs were withdrawn.
pub fn book_step(
    book: &mut Book,
    session: &mut Session,
    venue: VenueId,
    step: Step,
) -> Result<Booked, BookFault>
    ensures withdrawn { IfOk result (λ done. done.withdrawn.items ≡ step.withdrawn) }
    ensures frames { IfOk result (λ done. map (λ frame. frame.items) done.frames.items ≡ step.out) }
    ensures note { IfOk result (λ done. done.note
        ≡ answered (withdraw_each step.withdrawn book.old) venue step.note) }
    ensures ended { IfOk result (λ done. done.ended ≡ step.ended) }
    ensures book { OnOk result (book.new ≡ booked venue step.note (withdraw_each step.withdrawn book.old)) }
    ensures session { OnOk result (session.new ≡ confirmed step.note session.old) }
    ensures book_err { OnErr result (book.new ≡ withdraw_each step.withdrawn book.old) }
    ensures session_err { OnErr result (session.new ≡ session.old) }
{
    let Step {
        out,
        note,
        withdrawn,
        ended,
    } = step;
    let withdrawn = withdrawn.into_vec();
    withdraw_each(book, withdrawn.as_slice());
    let note = match note {
        Some(note) => {
            let applied = take_note(book, session, venue, &note)?;
            Some((note, applied))
        }
        None => None,
    };
    Ok(Booked {
        withdrawn,
        frames: out.into_vec(),
        note,
        ended,
    })
}

/// The next leg that the desk lets go to a venue: none while its gate isn't up.
fn next_to_send(desk: &Desk, venue: VenueId) -> Option<PlacedLeg>
    requires { venue < length desk.now.desk.venues }
    ensures { result ≡ (take desk.now.desk venue).0 }
{
    match desk.gate(venue) {
        Gate::Up => desk.next_leg(venue),
        Gate::Down => None,
        Gate::Shut => None,
    }
}

/// The next leg that the desk lets go to a venue is sent, and leaves the desk.
pub fn send_next(
    line: &mut Line,
    desk: &mut Desk,
    venue: VenueId,
    stamp: &Stamp,
) -> Result<Option<Vec<u8>>, SessionFault>
    requires { venue < length desk.old.desk.venues }
    ensures sends { Sends (wording_of line.old.dialect) stamp.now line.old.session desk.old.desk
        (take desk.old.desk venue) result line.new.session desk.new.desk }
    ensures reader { line.new.reader ≡ line.old.reader }
    ensures dialect { line.new.dialect ≡ line.old.dialect }
{
    let Some(placed) = next_to_send(desk, venue) else {
        return Ok(None);
    };
    let frame = line
        .session
        .send_leg(&line.dialect, placed.ordinal, &placed.leg, stamp)?;
    let _ = desk.take(venue);
    Ok(Some(frame))
}

/// A gate is put up, where it can be. The only refusal is out of memory.
fn put_up(desk: &mut Desk, venue: VenueId) -> Result<(), AllocError>
    requires { venue < length desk.old.desk.venues }
    ensures ok { OnOk result (desk.new.desk ≡ (gate_up desk.old.desk venue).1) }
    ensures err { OnErr result (desk.new.desk ≡ desk.old.desk) }
{
    match desk.gate_up(venue) {
        Ok(()) => Ok(()),
        Err(GateFault::OutOfMemory) => Err(AllocError),
        Err(GateFault::NotDrained) => Ok(()),
        Err(GateFault::Closed) => Ok(()),
    }
}

/// Each leg placed at a venue is dropped, while its gate isn't up, and withdrawn in the book. These are given.
fn drop_placed(
    alloc: Global,
    desk: &mut Desk,
    book: &mut Book,
    venue: VenueId,
) -> Result<Vec<LegId>, AllocError>
    requires { venue < length desk.old.desk.venues }
    ensures { IfOk result (λ ids. record { desk = desk.new.desk; book = book.new; ids = ids.items }
        ≡ drop_legs venue (placed desk.old.desk venue) (record { desk = desk.old.desk; book = book.old; ids = [] })) }
{
    let mut ids = Vec::new(alloc);
    'each: for _ in 0..desk.placed(venue) {
        if let Some(placed) = desk.drop_next(venue) {
            let id = placed.leg.id;
            let _ = book.withdraw(id);
            ids.push(id)?;
        }
    }
    Ok(ids)
}

/// A venue's gate is up while its session is. Else it is down, and each leg that is placed there is dropped, and
/// withdrawn: these are given.
pub fn follow(
    alloc: Global,
    desk: &mut Desk,
    book: &mut Book,
    venue: VenueId,
    phase: Phase,
) -> Result<Vec<LegId>, AllocError>
    requires { venue < length desk.old.desk.venues }
    ensures { IfOk result (λ ids. record { desk = desk.new.desk; book = book.new; ids = ids.items }
        ≡ follow_in phase venue desk.old.desk book.old) }
{
    if phase == Phase::Up {
        put_up(desk, venue)?;
        return Ok(Vec::new(alloc));
    }
    desk.gate_down(venue);
    drop_placed(alloc, desk, book, venue)
}
