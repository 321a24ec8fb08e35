//! What a worker tells of itself.

use crate::doubt_count::count_doubts;
use session_core::Session;
use std::alloc::Global;
use std::sync::Arc;
use venue_board::{Progress, VenueBoard};

/// How many moments of a worker's timer pass between two counts of its legs while it is busy.
const COUNT_AFTER: u64 = 100;

/// The board on which a worker tells of itself, if there is one.
#[derive(Drop)]
pub(crate) struct Reporter {
    board: Option<Arc<VenueBoard, Global>>,
    /// The moment at which its legs were counted last.
    counted: u64,
    /// Whether a dial was refused since the session was found down.
    is_refused: bool,
}

impl Reporter {
    /// It tells nobody.
    pub fn new() -> Reporter {
        Reporter {
            board: None,
            counted: 0,
            is_refused: false,
        }
    }

    /// From now on it tells on this board.
    pub fn tell_on(&mut self, board: Arc<VenueBoard, Global>) {
        self.board = Some(board);
    }

    /// The session is so far.
    pub fn tell(&self, progress: Progress) {
        if let Some(board) = &self.board {
            board.tell(progress);
        }
    }

    /// The book refused to withdraw so many legs.
    pub fn tell_refused(&self, refused: u64) {
        if let Some(board) = &self.board {
            board.tell_refused(refused);
        }
    }

    /// A dial was refused. It is told once it is known when the next one comes.
    pub fn refused(&mut self) {
        self.is_refused = true;
    }

    /// The session was found down, and the next dial comes after so many milliseconds.
    pub fn found_down(&mut self, millis: u64) {
        let Some(board) = &self.board else {
            return;
        };
        board.tell_pause(millis);
        if self.is_refused {
            self.is_refused = false;
            board.tell(Progress::Unreachable);
        }
    }

    /// Whether the legs were counted so long before this moment that a busy worker counts them again.
    pub fn is_due(&self, moment: u64) -> bool {
        self.board.is_some() && moment.saturating_sub(self.counted) >= COUNT_AFTER
    }

    /// Counts the legs at this moment: so many were taken, and so many of them withdrawn. The last message came at the
    /// moment `heard`.
    pub fn count(
        &mut self,
        session: &Session,
        taken: u64,
        withdrawn: u64,
        moment: u64,
        heard: u64,
    ) {
        if let Some(board) = &self.board {
            self.counted = moment;
            let doubts = count_doubts(session, taken);
            board.tell_legs(taken, doubts.count, doubts.settled, withdrawn);
            board.tell_heard(heard);
        }
    }
}
