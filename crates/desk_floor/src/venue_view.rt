//! What the threads of a day see of a venue.

ghost use Rattle.std.specs.Prelude.{◌≡◌};
ghost use Rattle.desk_floor.specs.Status.{IsSeen};

use crate::standing::{Held, Standing, standing_of};
use clock::Clock;
use day_log::{Traffic, VenueLog};
use desk_news::Told;
use leg::VenueId;
use link::LastDial;
use std::alloc::{AllocError, Global};
use std::sync::{Arc, Wait};
use venue_board::VenueBoard;

/// How many milliseconds are a second.
const SECOND: u64 = 1_000;

/// What is seen of a venue at a moment.
#[derive(Clone, Copy, Debug, PartialEq, Eq)]
pub struct Seen {
    pub venue: VenueId,
    pub standing: Standing,
    /// How many seconds the pause before the next dial lasts, a part of one counted as a whole.
    pub seconds: u64,
    /// How many legs its worker has taken.
    pub taken: u64,
    /// How many of them are in doubt.
    pub doubts: u64,
}

/// What the threads of a day see of a venue: what its worker tells on its board, why its link couldn't be dialled, what
/// went over it, and the log of its messages, if one is kept.
#[derive(Drop)]
pub struct VenueView {
    board: Arc<VenueBoard, Global>,
    last_dial: Arc<LastDial, Global>,
    traffic: Arc<Traffic, Global>,
    log: Option<Arc<VenueLog, Global>>,
}

impl VenueView {
    /// Of a venue whose worker has told nothing.
    pub fn new(alloc: Global, log: Option<Arc<VenueLog, Global>>) -> Result<VenueView, AllocError> {
        Ok(VenueView {
            board: Arc::new(alloc, VenueBoard::new())?,
            last_dial: Arc::new(alloc, LastDial::new())?,
            traffic: Arc::new(alloc, Traffic::new())?,
            log,
        })
    }

    /// The board for its worker to tell on.
    pub fn board(&self) -> Result<Arc<VenueBoard, Global>, AllocError> {
        self.board.clone()
    }

    /// Where its link tells why a dial failed.
    pub fn last_dial(&self) -> Result<Arc<LastDial, Global>, AllocError> {
        self.last_dial.clone()
    }

    /// What went over its link.
    pub fn traffic(&self) -> &Traffic {
        &self.traffic
    }

    /// Where its link counts what goes over it.
    pub fn shared_traffic(&self) -> Result<Arc<Traffic, Global>, AllocError> {
        self.traffic.clone()
    }

    /// How many of its legs the worker has taken.
    pub fn taken(&self) -> u64 {
        self.board.taken()
    }

    /// How many of them are settled: the exchange took them, or they were withdrawn.
    pub fn settled_legs(&self) -> u64 {
        self.board.taken().saturating_sub(self.board.doubts())
    }

    /// How many of the settled ones were withdrawn.
    pub fn withdrawn_legs(&self) -> u64 {
        self.board.withdrawn()
    }

    /// On how many legs the exchange contradicted itself: the book has reports on them, and refused to withdraw them.
    pub fn contradicted_legs(&self) -> u64 {
        self.board.refused()
    }

    /// Up to which of them none is in doubt.
    pub fn settled(&self) -> u64 {
        self.board.settled()
    }

    /// How many milliseconds ago the last message came, by the worker's clock; none where no connection was made.
    pub fn heard_ms_ago(&self, clock: &impl Clock) -> Option<u64> {
        let heard = self.board.heard();
        if heard == 0 {
            return None;
        }
        Some(clock.millis().saturating_sub(heard))
    }

    /// The log of its messages, if one is kept.
    pub fn log(&self) -> Result<Option<Arc<VenueLog, Global>>, AllocError> {
        match &self.log {
            Some(log) => Ok(Some(log.clone()?)),
            None => Ok(None),
        }
    }

    /// How many lines of its log were lost: 0 where none is kept. It may wait for the log's lock.
    pub fn lost(&self, rt: &impl Wait) -> u64 {
        match &self.log {
            Some(log) => log.counts(rt).lost,
            None => 0,
        }
    }

    /// What the venue said as it logged out of its last connection, if it did. It may wait for a lock.
    pub fn said(&self, rt: &impl Wait) -> Option<Told> {
        self.traffic.logout_text().now(rt)
    }

    /// What is seen of the venue of this number now, whose gate is shut or not, and that a person holds or doesn't.
    pub fn seen(&self, venue: VenueId, is_shut: bool, held: Option<Held>) -> Seen
        ensures venue { result.venue ≡ venue }
        ensures standing { IsSeen result.standing }
    {
        let board = &self.board;
        Seen {
            venue,
            standing: standing_of(board.progress(), is_shut, self.last_dial.error(), held),
            seconds: board.pause().div_ceil(SECOND),
            taken: board.taken(),
            doubts: board.doubts(),
        }
    }
}
