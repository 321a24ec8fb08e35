//! A venue of the world.

ghost use Rattle.std.specs.Prelude.{◌≡◌, ◌≤◌};
ghost use Rattle.schedule.specs.World.{new_venue, reports_in};
ghost use Rattle.schedule.specs.Happening.{is_session_up};
ghost use Rattle.exchange_core.specs.Exchange.{accepted_by};

mod acts;
mod calls;
mod deliveries;
mod endings;
mod hearing;
mod sends;

use crate::ends::{exchange_end, session_end};
use crate::frame::Frame;
use dialect::{Dialect, Note, Report};
use exchange_core::Exchange;
use leg::{Leg, LegState};
use session_core::{Phase, Session};
use std::alloc::Global;
use std::marker::Model;

/// A venue: its dialect, the two ends of the connection with it, every frame ever written in each direction, and the
/// notes handed to the book.
#[derive(Drop)]
pub struct Venue<D: Dialect + Drop> {
    dialect: D,
    session: Session,
    exchange: Exchange,
    to_exchange: Vec<Frame>,
    from_exchange: Vec<Frame>,
    given: Vec<Note>,
}

impl<D: Dialect + Drop> Model for Venue<D> {
    ghost use Rattle.schedule.specs.World.{VenueParts};

    ghost Value = { VenueParts };

    ghost use Rattle.venue_replay.specs.Network.{all_said};
    ghost use Rattle.venue_replay.specs.Kept.{IsKept};

    ghost view = { λ v. record {
      session = v.session;
      exchange = v.exchange;
      to_exchange = all_said (D.wording v.dialect).decoding v.to_exchange.items;
      from_exchange = all_said (D.wording v.dialect).decoding v.from_exchange.items;
      given = v.given.items;
    } };

    ghost invariant = { λ v. IsKept (D.wording v.dialect).encoding v.session v.exchange v.to_exchange.items
        v.from_exchange.items };
}

impl<D: Dialect + Drop> Venue<D> {
    ghost use Rattle.dialect.specs.Wording.{Decoding};
    ghost use Rattle.session_core.specs.Session.{leg_state};
    ghost use Rattle.venue_replay.specs.Network.{all_said};
    ghost use Rattle.venue_replay.specs.AtVenue.{begun_again};

    /// A venue where nothing was written. `max_number`, which no message of the session has, is 16 to 999,999,999;
    /// `next` says whether the session's Logons say which number it expects next (789).
    pub fn new(alloc: Global, dialect: D, next: bool, max_number: u64) -> Venue<D>
        requires low { 16 ≤ max_number }
        requires high { max_number ≤ 999999999 }
        ensures { result ≡ new_venue max_number next }
    {
        Venue {
            dialect,
            session: Session::new(alloc, session_end(max_number, next)),
            exchange: Exchange::new(alloc, exchange_end()),
            to_exchange: Vec::new(alloc),
            from_exchange: Vec::new(alloc),
            given: Vec::new(alloc),
        }
    }

    /// The session is a new one again, which wrote nothing and handed nothing to the book; the exchange and the frames
    /// that it wrote are as they were. `max_number` and `next` as for a new venue.
    pub fn begin_again(&mut self, next: bool, max_number: u64)
        requires low { 16 ≤ max_number }
        requires high { max_number ≤ 999999999 }
        ensures { self.new ≡ begun_again max_number next self.old }
    {
        let alloc = *self.given.allocator();
        self.session = Session::new(alloc, session_end(max_number, next));
        self.to_exchange = Vec::new(alloc);
        self.given = Vec::new(alloc);
    }

    /// How far the session has come.
    pub fn phase(&self) -> Phase
        ensures { result ≡ self.now.session.phase }
    {
        self.session.phase()
    }

    /// How many connections the session had, with the present one.
    pub fn connection(&self) -> u64
        ensures { result ≡ self.now.session.connection }
    {
        self.session.connection()
    }

    /// The number that the session expects of the exchange's next message.
    pub fn session_expects(&self) -> u64
        ensures { result ≡ self.now.session.expected }
    {
        self.session.next_in()
    }

    /// The number that the exchange expects of the session's next message.
    pub fn exchange_expects(&self) -> u64
        ensures { result ≡ self.now.exchange.expected }
    {
        self.exchange.expected()
    }

    /// Whether the session is up.
    pub fn is_up(&self) -> bool
        ensures { result ≡ is_session_up self.now.session.phase }
    {
        match self.session.phase() {
            Phase::Up => true,
            Phase::Down => false,
            Phase::LoggingOn => false,
            Phase::Settling => false,
            Phase::Closing => false,
            Phase::LoggedOut => false,
            Phase::Closed => false,
        }
    }

    /// How far the leg of an ordinal is settled, if it was sent.
    pub fn leg_state(&self, ordinal: u64) -> Option<LegState>
        ensures { result ≡ leg_state self.now.session ordinal }
    {
        self.session.leg_state(ordinal)
    }

    /// The orders that the exchange accepted, in order.
    pub fn accepted(&self) -> &[Leg]
        ensures { result.now ≡ accepted_by self.now.exchange }
    {
        self.exchange.accepted()
    }

    /// How many orders were accepted when the exchange took the session's Logout, if it did.
    pub fn closed_at(&self) -> Option<usize>
        ensures { result ≡ self.now.exchange.closed_at }
    {
        self.exchange.closed_at()
    }

    /// The reports that the exchange made, in order.
    pub fn made(&self) -> &[Report]
        ensures { result.now ≡ reports_in self.now.exchange.own }
    {
        self.exchange.reports()
    }

    /// The frames ever written to the exchange, in order.
    pub fn frames_to(&self) -> &[Frame]
        ensures { (read : Decoding) × (self.now.to_exchange ≡ all_said read result.now) }
    {
        self.to_exchange.as_slice()
    }

    /// The frames ever written by the exchange, in order.
    pub fn frames_from(&self) -> &[Frame]
        ensures { (read : Decoding) × (self.now.from_exchange ≡ all_said read result.now) }
    {
        self.from_exchange.as_slice()
    }

    /// The notes handed to the book, whatever it answered, in order.
    pub fn given(&self) -> &[Note]
        ensures { result.now ≡ self.now.given }
    {
        self.given.as_slice()
    }
}
