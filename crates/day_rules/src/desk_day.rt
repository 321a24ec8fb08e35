//! The log of the lines that a desk took.

ghost use Rattle.std.specs.Prelude.{◌≡◌, ◌≤◌, length, option_and_then, slice_get, OnErr, OnOk};
ghost use Rattle.day_rules.specs.DeskDay.{desk_heard, new_desk};

use crate::intake::Intake;
use crate::lines::{first_line, note_line};
use desk_words::VenueName;
use leg::Legs;
use log_rules::Moment;
use message_log::Direction;
use std::alloc::{AllocError, Global};
use std::marker::Model;

/// What is known of the log of a desk's lines behind those that were heard, and where things stand in it.
#[derive(Debug, Drop)]
pub struct DeskDay {
    intake: Intake,
    /// Where each sweep was placed.
    placed: Vec<u64>,
    /// The first line that doesn't fit those before it.
    unfit: Option<u64>,
    /// When the last line was logged.
    last: Option<Moment>,
}

impl Model for DeskDay {
    ghost use Rattle.day_rules.specs.DeskDay.{DeskParts};

    ghost Value = { DeskParts };

    ghost view = { λ d. record { intake = d.intake; placed = d.placed.items; unfit = d.unfit; last = d.last } };
}

impl DeskDay {
    /// Before any line, of a desk with venues of these names, at most 16. A leg's venue is the place of its name.
    pub fn new(alloc: Global, names: Vec<VenueName>) -> DeskDay
        requires { length names.items ≤ 16 }
        ensures { result ≡ new_desk names.items }
    {
        DeskDay {
            intake: Intake::new(alloc, names),
            placed: Vec::new(alloc),
            unfit: None,
            last: None,
        }
    }

    /// Goes on behind a line (`>`) or an answer (`<`), in the line of this number, which was logged at this moment. An
    /// answer that places a sweep has to place the one that the line before it asked for, under the next number and
    /// with its shares. Where memory is refused, nothing changes.
    pub fn hear(
        &mut self,
        number: u64,
        moment: Moment,
        direction: Direction,
        text: &[u8],
    ) -> Result<(), AllocError>
        ensures ok { OnOk result (self.new ≡ desk_heard number moment direction text.now self.old) }
        ensures err { OnErr result (self.new ≡ self.old) }
    {
        self.placed.reserve(1)?;
        let does_fit = self.intake.hear(direction, text)?;
        note_line(&mut self.placed, number, self.intake.sweeps().len());
        self.unfit = first_line(!does_fit, number, self.unfit);
        self.last = Some(moment);
        Ok(())
    }

    /// The legs of the sweeps that were placed, in order: the first has number 1.
    pub fn sweeps(&self) -> &[Legs]
        ensures { result.now ≡ self.now.intake.sweeps }
    {
        self.intake.sweeps()
    }

    /// The first line that doesn't fit those before it.
    pub fn unfit(&self) -> Option<u64>
        ensures { result ≡ self.now.unfit }
    {
        self.unfit
    }

    /// When the last line was logged.
    pub(crate) fn last(&self) -> Option<Moment>
        ensures { result ≡ self.now.last }
    {
        self.last
    }

    /// Where the sweep at a place was placed.
    pub(crate) fn placed_line(&self, place: Option<usize>) -> Option<u64>
        ensures { result ≡ option_and_then (slice_get self.now.placed) place }
    {
        self.placed.get(place?).copied()
    }
}
