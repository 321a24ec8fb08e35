//! The days at a lock.

use crate::turn::{Reported, Turn};
use trial::{Order, TEN};

/// A day at a lock of so many venues.
#[derive(Clone, Copy, Debug)]
pub struct LockDay {
    pub name: &'static str,
    pub venues: u8,
    pub turns: &'static [Turn],
}

const TWENTY: Order = Order { shares: 20, ..TEN };

const ONE: Order = Order { shares: 1, ..TEN };

/// Legs for two venues.
const BOTH: [Order; 3] = [
    TEN,
    Order {
        venue: 1,
        shares: 20,
        ..TEN
    },
    Order { shares: 30, ..TEN },
];

/// As many legs as a sweep may have, of one share each.
const MANY: [Order; 32] = [ONE; 32];

/// As many of ten shares each.
const FULL: Turn = Turn::Release(&[TEN; 32]);

/// The day on which memory is refused: a sweep is released to gates that are down, and others once they are up; more
/// legs than the ring of the first venue has room for are moved into it by releases and by a pump; its gate goes down,
/// stays down until every leg was popped, and goes up again.
pub const REFUSED: LockDay = LockDay {
    name: "two venues",
    venues: 2,
    turns: &[
        Turn::Release(&BOTH),
        Turn::Raise(0),
        Turn::Raise(1),
        Turn::Release(&BOTH),
        Turn::Drop { venue: 0, legs: 1 },
        Turn::Release(&MANY),
        Turn::Release(&MANY),
        Turn::Release(&MANY),
        Turn::Drop { venue: 0, legs: 40 },
        Turn::Pump(0),
        Turn::Release(&[]),
        Turn::Release(&BOTH),
        Turn::Lower(0),
        Turn::Raise(0),
        Turn::Release(&BOTH),
        Turn::Drop { venue: 0, legs: 64 },
        Turn::Raise(0),
        Turn::Drop { venue: 1, legs: 8 },
        Turn::Release(&BOTH),
        Turn::Drop { venue: 0, legs: 8 },
        Turn::Drop { venue: 1, legs: 8 },
    ],
};

/// Behind a gate that goes up, what is released is read back from the desk, the book and the ring. A report is booked,
/// once where it comes twice.
const READ_BACK: LockDay = LockDay {
    name: "what is released is read back",
    venues: 1,
    turns: &[
        Turn::Release(&[TEN]),
        Turn::Raise(0),
        Turn::Release(&[TEN]),
        Turn::Pop { venue: 0, legs: 1 },
        Turn::Pop { venue: 0, legs: 1 },
        Turn::Book {
            exec: "E",
            says: Reported::Trade(4),
        },
        Turn::Book {
            exec: "E",
            says: Reported::Trade(4),
        },
        Turn::Book {
            exec: "F",
            says: Reported::Canceled,
        },
        Turn::Release(&[TEN, TWENTY]),
        Turn::Pop { venue: 0, legs: 2 },
        Turn::Pop { venue: 0, legs: 1 },
    ],
};

/// A ring has 64 legs, and 256 stay behind it. The gate goes down, and up again once all were popped: in each round the
/// next 64 go through the ring.
const FILLS_UP: LockDay = LockDay {
    name: "64 in the ring and 256 behind it",
    venues: 1,
    turns: &[
        Turn::Raise(0),
        FULL,
        FULL,
        FULL,
        FULL,
        FULL,
        FULL,
        FULL,
        FULL,
        Turn::Pump(0),
        FULL,
        FULL,
        Turn::Pump(0),
        Turn::Release(&[TEN]),
        Turn::Pump(0),
        Turn::Lower(0),
        Turn::Raise(0),
        Turn::Pop { venue: 0, legs: 64 },
        Turn::Raise(0),
        Turn::Pump(0),
        Turn::Raise(0),
        Turn::Pop { venue: 0, legs: 64 },
        Turn::Raise(0),
        Turn::Pump(0),
        Turn::Raise(0),
        Turn::Pop { venue: 0, legs: 64 },
        Turn::Raise(0),
        Turn::Pump(0),
        Turn::Raise(0),
        Turn::Pop { venue: 0, legs: 64 },
        Turn::Raise(0),
        Turn::Pump(0),
        Turn::Raise(0),
        Turn::Pop { venue: 0, legs: 64 },
        Turn::Raise(0),
        Turn::Pop { venue: 0, legs: 1 },
    ],
};

/// With 64 legs in the ring and 32 behind it, five are popped, and no more though the ring has them. A refused sweep
/// moves no leg into the ring, and the next one moves five.
const MOVES_ON: LockDay = LockDay {
    name: "a refused sweep moves no leg",
    venues: 1,
    turns: &[
        Turn::Raise(0),
        FULL,
        FULL,
        FULL,
        Turn::Pop { venue: 0, legs: 5 },
        Turn::Release(&[TEN; 33]),
        Turn::Release(&[TEN]),
    ],
};

/// All days, the one on which memory is refused the first.
pub const DAYS: [LockDay; 4] = [REFUSED, READ_BACK, FILLS_UP, MOVES_ON];
