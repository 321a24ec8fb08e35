//! What follows for each note that was given: each law is the contract of a function that does nothing.

ghost use Rattle.std.specs.Prelude.{◌≡◌, ℕ, Some};
ghost use Rattle.exec_collector.specs.Booked.{IsKept};
ghost use Rattle.exec_collector.specs.Seats.{Seat};
ghost use Rattle.exec_collector.specs.Unbooked.{CountedParts, WereUnbooked, AreToldOnce};

/// Each note that was given on a venue's seat is either an entry of the book or in the list of those that it didn't
/// take, exactly once, and both have them in the order in which they were given.
pub fn each_note_is_told_once()
    ensures { (counted : CountedParts) (seat : Seat) (venue : ℕ) → seat.venue ≡ Some venue →
        IsKept counted.book seat → WereUnbooked counted.unbooked seat → AreToldOnce counted venue seat.booked }
{}
