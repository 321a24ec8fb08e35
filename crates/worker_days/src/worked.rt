//! The worked day.

use crate::course::{Beside, Course, Shuts};
use exchange_sim::Plan;
use session_worker::Pace;
use trial::{MAX_NUMBER, Order, TEN};

const FIVE: Order = Order { shares: 5, ..TEN };

/// The sweep that is placed before the worker's first turn, which drops it.
const EARLY: &[Order] = &[TEN, FIVE];

/// The sweeps that are released while the worker takes its turns.
const SWEEPS: &[&[Order]] = &[
    &[TEN, FIVE, TEN],
    &[TEN; 4],
    &[FIVE],
    &[FIVE; 12],
    &[TEN, FIVE],
];

/// The day.
pub const COURSE: Course<'static> = Course {
    early: EARLY,
    sweeps: SWEEPS,
    beside: Beside::Reads,
    pause: 6,
    shuts: Shuts::AfterSweeps,
    max_number: MAX_NUMBER,
    pace: Pace::Turns {
        quiet_turns: 20,
        silent_turns: 80,
    },
    turn_limit: 20_000,
};

/// How many legs its sweeps have.
pub const LEGS: usize = 24;

/// The exchange trades six shares of each order, loses the fourth message, and cuts the connection behind the
/// thirteenth.
pub const LOSES: Plan = Plan {
    fill: 6,
    cut_after: 13,
    lose: 4,
};
