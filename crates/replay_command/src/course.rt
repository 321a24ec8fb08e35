//! The course of a day.

ghost use Rattle.std.specs.Prelude.{◌≡◌, IfOk};
ghost use Rattle.replay_command.specs.Steps.{dawn};

use dialect::AnyDialect;
use event_text::{JournalLines, Settled};
use replay::Day;
use std::alloc::{AllocError, Global};
use std::marker::Model;

/// The course of a day: the day, how many events it had, which legs were told as settled, and which event wrote each
/// line of the journals.
#[derive(Drop)]
pub struct Course {
    pub(crate) day: Day<AnyDialect>,
    pub(crate) events: u64,
    pub(crate) settled: Settled,
    pub(crate) lines: JournalLines,
}

impl Model for Course {
    ghost use Rattle.replay_command.specs.Steps.{Told};

    ghost Value = { Told };

    ghost view = { λ c. record { day = c.day; events = c.events; settled = c.settled } };
}

impl Course {
    /// That of a day before its first event. The only refusal is out of memory.
    pub fn new(alloc: Global, day: Day<AnyDialect>) -> Result<Course, AllocError>
        ensures { IfOk result (λ course. course ≡ dawn day) }
    {
        let lines = JournalLines::new(alloc, day.world().venues())?;
        Ok(Course {
            day,
            events: 0,
            settled: Settled::new(),
            lines,
        })
    }
}
