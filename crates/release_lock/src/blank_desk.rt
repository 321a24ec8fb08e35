//! The count of a desk whose run has no name yet.

ghost use Rattle.std.specs.Prelude.{◌≡◌};

use exec_collector::PlacedSweep;
use slips::{SlipBook, new_book};
use std::marker::Model;
use std::sync::ledger::Blank;

/// The count of a desk whose run has no name yet: a run is named by what stands here. Contracts see the name and the
/// parts of the count, and the name of the book that gives a slip for each sweep released.
#[derive(Drop)]
pub struct BlankDesk {
    pub(crate) total: Blank,
    pub(crate) book: SlipBook<PlacedSweep>,
}

impl Model for BlankDesk {
    ghost use Rattle.std.specs.Prelude.{◌≡◌, []};
    ghost use Rattle.release_lock.specs.Seats.{BlankParts};

    ghost Value = { BlankParts };

    ghost view = { λ blank. record {
      name = blank.total.name;
      parts = blank.total.parts;
      slips = blank.book.name;
    } };

    ghost invariant = { λ blank. blank.book.given ≡ [] };
}

impl BlankDesk {
    /// A count of so many parts. `ReleaseLock::new` wants 1,024.
    pub fn new(parts: u64) -> BlankDesk
        ensures { result.parts ≡ parts }
    {
        BlankDesk {
            total: Blank::new(parts),
            book: new_book(),
        }
    }
}
