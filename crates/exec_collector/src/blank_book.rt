//! A book whose run has no name yet.

ghost use Rattle.std.specs.Prelude.{◌≡◌, ◌≤◌, IfOk, IsOkUnless};

use crate::Booking;
use agreed_list::{BookSide, SeatSide, new_list};
use leg::{Sweep, VenueId};
use share_ledger::BookFault;
use std::alloc::Global;
use std::marker::Model;
use std::sync::ledger::Blank;

/// Both sides of the list of a venue's bookings.
#[derive(Drop)]
pub(crate) struct BlankList {
    pub(crate) venue: VenueId,
    pub(crate) book: BookSide<Booking>,
    pub(crate) seat: SeatSide<Booking>,
}

/// The count and the venues' lists of a book whose run has no name yet: a run is named by what stands here. Contracts
/// see the name and the parts of the count, and the names of the lists.
#[derive(Drop)]
pub struct BlankBook {
    pub(crate) total: Blank,
    pub(crate) lists: Vec<BlankList>,
    pub(crate) sweeps: BookSide<Sweep>,
    pub(crate) desk: SeatSide<Sweep>,
}

impl Model for BlankBook {
    ghost use Rattle.std.specs.Prelude.{◌≡◌, [], length, map};
    ghost use Rattle.exec_collector.specs.Blank.{BlankParts, AreBlank};

    ghost Value = { BlankParts };

    ghost view = { λ blank. record {
      name = blank.total.name;
      parts = blank.total.parts;
      lists = map (λ list. list.book.name) blank.lists.items;
      sweeps = blank.sweeps.name;
    } };

    ghost invariant = { λ blank. (blank.total.parts ≡ length blank.lists.items) × AreBlank 0 blank.lists.items
        × (blank.desk.name ≡ blank.sweeps.name) × (blank.sweeps.items ≡ []) × (blank.desk.items ≡ []) };
}

impl BlankBook {
    /// For 1 to 16 venues: a part of the count and a list for each. B02.
    pub fn new(alloc: Global, venues: u8) -> Result<BlankBook, BookFault>
        requires { venues ≤ 16 }
        ensures parts { IfOk result (λ blank. blank.parts ≡ venues) }
        ensures only { IsOkUnless result BookFault.OutOfMemory }
    {
        let mut lists = Vec::with_capacity(alloc, usize::from(venues))?;
        for number in 0..venues {
            let Ok(venue) = VenueId::new(number) else {
                unreachable!()
            };
            let (book, seat) = new_list();
            lists.push_reserved(BlankList { venue, book, seat });
        }
        let total = Blank::new(u64::from(venues));
        let (sweeps, desk) = new_list();
        Ok(BlankBook {
            total,
            lists,
            sweeps,
            desk,
        })
    }
}
