//! A book that gives slips, and their holders.

ghost use Rattle.std.specs.Prelude.{ℕ, List, ◌≡◌, ◌++◌, ◌∷◌, []};
ghost use base.Stored.{coded_list};
ghost use Rattle.slips.specs.Slips.{AreOf, book_owns, slips_own};

use std::marker::{Model, PhantomData};

/// A book that gives slips. Contracts see which book it is, by its name, and for what it gave slips, in order.
pub struct SlipBook<T> {
    marker: PhantomData<T>,
    pub ghost name: { ℕ },
    pub ghost given: { List T } by { coded_list T.code },
}

impl<T> Model for SlipBook<T> {
    ghost also_owns = { λ b. book_owns T.row.coded.code b.name b.given };
}

/// Slips of one book. Contracts see which book gave them, by its name, and for what.
pub struct Slips<T> {
    marker: PhantomData<T>,
    pub ghost name: { ℕ },
    pub ghost held: { List T } by { coded_list T.code },
}

impl<T> Model for Slips<T> {
    ghost also_owns = { λ s. slips_own T.row.coded.code s.name s.held };
}

/// A new book, which gave none.
pub fn new_book<T>() -> SlipBook<T>
    ensures given { result.given ≡ [] }
{
    SlipBook {
        marker: PhantomData,
    }
}

/// None of the slips of a book.
pub fn no_slips<T>() -> Slips<T>
    ghost name: { ℕ }
    ensures name { result.name ≡ name }
    ensures held { result.held ≡ [] }
{
    Slips {
        marker: PhantomData,
    }
}

impl<T> SlipBook<T> {
    /// Gives one slip more.
    pub fn give(&mut self, slips: &mut Slips<T>)
        ghost item: { T }
        requires name { self.old.name ≡ slips.old.name }
        ensures book { (self.new.name ≡ self.old.name) × (self.new.given ≡ self.old.given ++ item ∷ []) }
        ensures slips { (slips.new.name ≡ slips.old.name) × (slips.new.held ≡ slips.old.held ++ item ∷ []) }
    {}

    /// Changes nothing, and tells that the slips are for items of the book's list, each for another one.
    pub fn compare(&mut self, slips: &mut Slips<T>)
        requires name { self.old.name ≡ slips.old.name }
        ensures held { AreOf slips.old.held self.old.given }
        ensures book { (self.new.name ≡ self.old.name) × (self.new.given ≡ self.old.given) }
        ensures slips { (slips.new.name ≡ slips.old.name) × (slips.new.held ≡ slips.old.held) }
    {}
}

impl<T> Slips<T> {
    /// Takes the slips of another holder over, behind its own.
    pub fn join(&mut self, other: &mut Slips<T>)
        requires name { self.old.name ≡ other.old.name }
        ensures held { (self.new.name ≡ self.old.name) × (self.new.held ≡ self.old.held ++ other.old.held) }
        ensures other { (other.new.name ≡ other.old.name) × (other.new.held ≡ []) }
    {}
}

impl<T> Drop for SlipBook<T> {
    fn drop(self) {
        let Self { marker: _ } = self;
    }
}

impl<T> Drop for Slips<T> {
    fn drop(self) {
        let Self { marker: _ } = self;
    }
}

unsafe impl<T> Send for SlipBook<T> {}

unsafe impl<T> Send for Slips<T> {}
