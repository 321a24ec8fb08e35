//! Which lists stand under the lock.

ghost use Rattle.std.specs.Prelude.{ℕ, List, []};

use std::marker::Brand;
use std::sync::ledger::Ledger;

/// The count of a book and of its workers' seats, with the list of each venue's bookings, by its name: one for the book
/// and the seat of that venue.
pub trait Accounts: Ledger {
    ghost lists: { List ℕ };

    /// The list of the sweeps that were opened: one for the book, and one for the desk that releases them.
    ghost sweeps: { ℕ };
}

impl Accounts for Brand {
    ghost lists = { [] };

    ghost sweeps = { 0 };
}
