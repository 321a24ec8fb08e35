//! The two sides of a list.

ghost use Rattle.std.specs.Prelude.{ℕ, List, ◌≡◌, ◌++◌, ◌∷◌, []};
ghost use base.Stored.{coded_list};
ghost use Rattle.agreed_list.specs.Sides.{book_owns, seat_owns};

use std::marker::{Model, PhantomData};

/// The side that the book keeps, under its lock. Contracts see which list it is, by its name, and its items, in order.
pub struct BookSide<T> {
    marker: PhantomData<T>,
    pub ghost name: { ℕ },
    pub ghost items: { List T } by { coded_list T.code },
}

impl<T> Model for BookSide<T> {
    ghost also_owns = { λ s. book_owns T.row.coded.code s.name s.items };
}

/// The side that goes with a seat. Contracts see the same of it.
pub struct SeatSide<T> {
    marker: PhantomData<T>,
    pub ghost name: { ℕ },
    pub ghost items: { List T } by { coded_list T.code },
}

impl<T> Model for SeatSide<T> {
    ghost also_owns = { λ s. seat_owns T.row.coded.code s.name s.items };
}

/// Both sides of a new list.
pub fn new_list<T>() -> (BookSide<T>, SeatSide<T>)
    ensures name { result.0.name ≡ result.1.name }
    ensures items { (result.0.items ≡ []) × (result.1.items ≡ []) }
{
    (
        BookSide {
            marker: PhantomData,
        },
        SeatSide {
            marker: PhantomData,
        },
    )
}

impl<T> BookSide<T> {
    /// One item more is on both sides.
    pub fn push(&mut self, seat: &mut SeatSide<T>)
        ghost item: { T }
        requires name { self.old.name ≡ seat.old.name }
        ensures agreed { self.old.items ≡ seat.old.items }
        ensures book { (self.new.name ≡ self.old.name) × (self.new.items ≡ self.old.items ++ item ∷ []) }
        ensures seat { (seat.new.name ≡ seat.old.name) × (seat.new.items ≡ seat.old.items ++ item ∷ []) }
    {}

    /// Both sides have these items from now on.
    pub fn set(&mut self, seat: &mut SeatSide<T>)
        ghost items: { List T }
        requires name { self.old.name ≡ seat.old.name }
        ensures agreed { self.old.items ≡ seat.old.items }
        ensures book { (self.new.name ≡ self.old.name) × (self.new.items ≡ items) }
        ensures seat { (seat.new.name ≡ seat.old.name) × (seat.new.items ≡ items) }
    {}

    /// Changes nothing, and tells that both sides have the same items.
    pub fn compare(&mut self, seat: &mut SeatSide<T>)
        requires name { self.old.name ≡ seat.old.name }
        ensures agreed { self.old.items ≡ seat.old.items }
        ensures book { (self.new.name ≡ self.old.name) × (self.new.items ≡ self.old.items) }
        ensures seat { (seat.new.name ≡ seat.old.name) × (seat.new.items ≡ seat.old.items) }
    {}
}

impl<T> Drop for BookSide<T> {
    fn drop(self) {
        let Self { marker: _ } = self;
    }
}

impl<T> Drop for SeatSide<T> {
    fn drop(self) {
        let Self { marker: _ } = self;
    }
}

unsafe impl<T> Send for BookSide<T> {}

unsafe impl<T> Send for SeatSide<T> {}
