//! A desk on which nothing was done, before it lies under its lock.

ghost use Rattle.std.specs.Prelude.{[], ◌≡◌, ◌≤◌, length, map, IfOk, IsOkUnless};
ghost use Rattle.std.specs.List.{All};
ghost use Rattle.sweep_release.specs.Desk.{new_desk};
ghost use Rattle.release_lock.specs.Queues.{IsFresh, new_drains};
ghost use Rattle.release_lock.specs.Seats.{first_seat};

use crate::{BlankDesk, CallerSeat, LockedDesk, Run, VenueDrain};
use agreed_list::SeatSide;
use kept_link::Untold;
use leg::{Sweep, VenueId};
use order_limits::Dollars;
use slips::no_slips;
use std::alloc::Global;
use std::collections::VecDeque;
use std::marker::PhantomData;
use sweep_release::{Desk, ReleaseFault};
use venue_queue::{Drain, Feed};

/// A new desk, the seat of its first caller, and the drains of the venues, in the order of their numbers.
#[derive(Drop)]
pub struct OpenedDesk<L: Run> {
    pub desk: LockedDesk<L>,
    pub seat: CallerSeat<L>,
    pub drains: Vec<VenueDrain<L>>,
}

impl<L: Run> LockedDesk<L> {
    /// A new desk of 1 to 16 venues, with the feed of each venue's ring; the first seat, with all 1,024 parts; and the
    /// drain of each ring. The rings have room for 64 legs, and nothing went through them. R07, and the rings are
    /// dropped.
    pub fn opened(
        alloc: Global,
        venues: u8,
        blank: BlankDesk,
        rings: VecDeque<(Feed, Drain)>,
        sweeps: SeatSide<Sweep>,
    ) -> Result<OpenedDesk<L>, ReleaseFault>
        requires low { 1 ≤ venues }
        requires high { venues ≤ 16 }
        requires rings { (length rings.items ≡ venues) × All IsFresh rings.items }
        requires sweeps { (sweeps.name ≡ L.sweeps) × (sweeps.items ≡ []) }
        requires queues { L.queues ≡ map (λ ends. ends.0.table) rings.items }
        requires name { blank.name ≡ L.name }
        requires parts { (blank.parts ≡ L.parts) × (L.parts ≡ 1024) }
        requires slips { blank.slips ≡ L.slips }
        ensures desk { IfOk result (λ opened. opened.desk.desk ≡ new_desk venues) }
        ensures seat { IfOk result (λ opened. opened.seat ≡ first_seat) }
        ensures drains { IfOk result (λ opened. opened.drains.items ≡ new_drains venues) }
        ensures only { IsOkUnless result ReleaseFault.OutOfMemory }
    {
        let desk = Desk::new(alloc, venues)?;
        let mut feeds = Vec::with_capacity(alloc, usize::from(venues))?;
        let mut drains = Vec::with_capacity(alloc, usize::from(venues))?;
        let mut rings = rings;
        for number in 0..venues {
            let Some((feed, drain)) = rings.pop_front() else {
                unreachable!()
            };
            let Ok(venue) = VenueId::new(number) else {
                unreachable!()
            };
            feeds.push_reserved(feed);
            drains.push_reserved(VenueDrain {
                venue,
                drain,
                of: PhantomData,
            });
        }
        let BlankDesk { total, book } = blank;
        let (total, share) = total.open::<L>();
        let desk = LockedDesk {
            desk,
            total,
            feeds,
            sweeps,
            book,
            dollars: Dollars::of(0),
            journal: Untold,
        };
        let seat = CallerSeat {
            parts: 1024,
            shares: 0,
            share,
            slips: no_slips(),
        };
        Ok(OpenedDesk { desk, seat, drains })
    }
}
