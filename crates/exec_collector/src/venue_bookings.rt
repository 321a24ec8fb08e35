//! The book's sides of the venues' bookings.

ghost use Rattle.std.specs.Prelude.{◌≡◌, ◌++◌, ◌∷◌, [], map, IfSome};
ghost use Rattle.exec_collector.specs.Booked.{notes_of, asked_of};
ghost use Rattle.exec_collector.specs.Sides.{IsOneMore};
ghost use Rattle.exec_collector.specs.declared.booking.Booking.{Booking};
ghost use Rattle.exec_collector.specs.declared.booking.Booking.TheVariants.{Given, Asked};

use crate::{Accounts, Booking, WorkerSeat};
use agreed_list::BookSide;
use dialect::Note;
use leg::{LegId, VenueId};
use share_ledger::Applied;

/// The book's side of a venue's bookings.
#[derive(Drop)]
pub(crate) struct VenueBookings {
    pub(crate) venue: VenueId,
    pub(crate) side: BookSide<Booking>,
}

/// A note was given, to which the book, of so many entries, answered this: it is one booking more on the seat and on
/// its venue's side.
pub(crate) fn add_note<M: Accounts>(
    bookings: &mut Vec<VenueBookings>,
    seat: &mut WorkerSeat<M>,
    note: &Note,
    answer: Applied,
    entries: usize,
)
    ghost booking: { Booking }
    requires lists { map (λ venue. venue.side.name) bookings.old.items ≡ M.lists }
    requires booking { booking ≡ Given note.now answer entries }
    ensures side { IfSome seat.old.venue (λ venue. IsOneMore venue booking bookings.old.items bookings.new.items) }
    ensures lists { map (λ venue. venue.side.name) bookings.new.items ≡ M.lists }
    ensures seat { seat.new ≡ record seat.old {
      booked = seat.old.booked ++ note.now ∷ [];
      bookings = seat.old.bookings ++ booking ∷ [];
    } }
{
    add_booking(bookings, seat);
}

/// A leg was to be withdrawn, and whether the book, of so many entries, withdrew it: it is one booking more there.
pub(crate) fn add_withdrawal<M: Accounts>(
    bookings: &mut Vec<VenueBookings>,
    seat: &mut WorkerSeat<M>,
    id: LegId,
    withdrawn: bool,
    entries: usize,
)
    ghost booking: { Booking }
    requires lists { map (λ venue. venue.side.name) bookings.old.items ≡ M.lists }
    requires booking { booking ≡ Asked id withdrawn entries }
    ensures side { IfSome seat.old.venue (λ venue. IsOneMore venue booking bookings.old.items bookings.new.items) }
    ensures lists { map (λ venue. venue.side.name) bookings.new.items ≡ M.lists }
    ensures seat { seat.new ≡ record seat.old {
      asked = seat.old.asked ++ id ∷ [];
      bookings = seat.old.bookings ++ booking ∷ [];
    } }
{
    add_booking(bookings, seat);
}

/// One booking more is on the seat and on its venue's side.
fn add_booking<M: Accounts>(bookings: &mut Vec<VenueBookings>, seat: &mut WorkerSeat<M>)
    ghost booking: { Booking }
    requires lists { map (λ venue. venue.side.name) bookings.old.items ≡ M.lists }
    ensures side { IfSome seat.old.venue (λ venue. IsOneMore venue booking bookings.old.items bookings.new.items) }
    ensures lists { map (λ venue. venue.side.name) bookings.new.items ≡ M.lists }
    ensures seat { seat.new ≡ record seat.old {
      booked = seat.old.booked ++ notes_of (booking ∷ []);
      asked = seat.old.asked ++ asked_of (booking ∷ []);
      bookings = seat.old.bookings ++ booking ∷ [];
    } }
{
    let Some(venue) = bookings.get_mut(usize::from(seat.venue.number())) else {
        unreachable!()
    };
    seat.book(&mut venue.side);
}
