//! The day of one venue.

ghost use Rattle.std.specs.Prelude.{◌<◌, length, IfOk};

use crate::frame::Frame;
use crate::standing::Standing;
use crate::turn::Turn;
use dialect::Note;
use exchange_core::Exchange;
use fix_tags::Stamp;
use leg::{PlacedLeg, VenueId};
use session_core::Session;
use share_ledger::Book;
use std::alloc::Global;
use std::fmt::Write;
use sweep_release::Desk;
use trial::{TrialFault, far_end, near_end, stamp};

/// The most frames of the day, each way.
const MAX_FRAMES: usize = 64;

/// The number that no message of the session has.
const MAX_NUMBER: u64 = 1_000;

/// A desk, a book, a session with one exchange, that exchange, and the frames between the two.
#[derive(Drop)]
pub struct Day {
    pub alloc: Global,
    pub stamp: Stamp,
    pub desk: Desk,
    pub book: Book,
    pub session: Session,
    pub exchange: Exchange,
    pub to_exchange: Vec<Frame>,
    pub from_exchange: Vec<Frame>,
    /// The leg that was taken from the desk and is to be sent.
    pub taken: Option<PlacedLeg>,
    /// The note that came and is to be booked.
    pub note: Option<Note>,
}

impl Day {
    fn begin_once(alloc: Global) -> Result<Day, TrialFault> {
        Ok(Day {
            alloc,
            stamp: stamp()?,
            desk: Desk::new(alloc, 1)?,
            book: Book::new(alloc, 1)?,
            session: Session::new(alloc, near_end(MAX_NUMBER)?),
            exchange: Exchange::new(alloc, far_end(MAX_NUMBER)?),
            to_exchange: Vec::with_capacity(alloc, MAX_FRAMES)?,
            from_exchange: Vec::with_capacity(alloc, MAX_FRAMES)?,
            taken: None,
            note: None,
        })
    }

    /// The day before its first turn, had at the second try where the first is refused memory.
    pub fn begin(alloc: Global) -> Result<Day, TrialFault> {
        match Day::begin_once(alloc) {
            Err(TrialFault::OutOfMemory) => Day::begin_once(alloc),
            day => day,
        }
    }

    /// The one venue.
    pub fn venue(&self) -> Result<VenueId, TrialFault>
        ensures { IfOk result (λ venue. venue < length self.now.desk.desk.venues) }
    {
        let venue = VenueId::new(0)?;
        if self.desk.venues() == 0 {
            return Err(TrialFault::Missing);
        }
        Ok(venue)
    }

    /// How all of it stands.
    fn standing(&self) -> Result<Standing, TrialFault> {
        let venue = self.venue()?;
        Ok(Standing {
            phase: self.session.phase(),
            connection: self.session.connection(),
            next_out: self.session.next_out(),
            next_in: self.session.next_in(),
            in_doubt: self.session.in_doubt(),
            expected: self.exchange.expected(),
            accepted: self.exchange.accepted().len(),
            reports: self.exchange.reports().len(),
            closed_at: self.exchange.closed_at(),
            gate: self.desk.gate(venue),
            placed: self.desk.placed(venue),
            placed_shares: self.desk.placed_shares(),
            resolved: self.book.venue_resolved(venue),
            desk_entries: self.desk.history().len(),
            book_entries: self.book.history().len(),
            sweeps: [
                self.book.totals(1),
                self.book.totals(2),
                self.book.totals(3),
            ],
        })
    }

    /// A call, which is made again where it is refused memory: by then it must have changed nothing.
    fn call_twice(&mut self, turn: &Turn) -> Result<(), TrialFault> {
        let before = self.standing()?;
        match self.call(turn) {
            Err(TrialFault::OutOfMemory) => {
                if self.standing()? != before {
                    return Err(TrialFault::Changed);
                }
                self.call(turn)
            }
            answer => answer,
        }
    }

    /// A turn: its call, and then the sending of the leg that it took, or the booking of the note that it brought.
    pub fn take_turn(&mut self, turn: &Turn) -> Result<(), TrialFault> {
        self.call_twice(turn)?;
        if self.taken.is_some() {
            self.call_twice(&Turn::Send)?;
        }
        if self.note.is_some() {
            self.call_twice(&Turn::Book)?;
        }
        Ok(())
    }

    /// Adds the line of a turn.
    pub fn tell(&self, turn: &Turn, text: &mut String) -> Result<(), TrialFault> {
        let standing = self.standing()?;
        writeln!(text, "{turn}: {standing}")?;
        Ok(())
    }

    /// The call of a turn.
    fn call(&mut self, turn: &Turn) -> Result<(), TrialFault> {
        match turn {
            Turn::Connect => self.connect(),
            Turn::ToExchange(frame) => self.to_exchange(*frame),
            Turn::ToSession(frame) => self.to_session(*frame),
            Turn::Unconfirmed(frame) => self.unconfirmed(*frame),
            Turn::GateUp => self.gate_up(),
            Turn::GateDown => self.gate_down(),
            Turn::Place(orders) => self.place(orders),
            Turn::Take => self.take(),
            Turn::Drop => self.drop_next(),
            Turn::Send => self.send(),
            Turn::Book => self.book(),
            Turn::Trade { order, shares } => self.trade(*order, *shares),
            Turn::CancelRest(order) => self.cancel_rest(*order),
            Turn::Reject(order) => self.reject(*order),
            Turn::Bust { order, trade } => self.bust(*order, *trade),
            Turn::Test => self.test(),
            Turn::Quiet => self.quiet(),
            Turn::Silent => self.silent(),
            Turn::Break => self.break_off(),
            Turn::ExchangeBreak => self.exchange_break(),
            Turn::Close => self.close(),
        }
    }
}
