//! The core of a day.

ghost use Rattle.std.specs.Prelude.{◌≤◌, length};

use crate::event::{Event, read_event};
use crate::line::Line;
use crate::said::Said;
use crate::setup::venues_of;
use crate::stopped::Stopped;
use desk_words::VenueName;
use share_ledger::Book;
use std::alloc::Global;
use sweep_refs::Submission;
use sweep_release::{Desk, ReleaseFault, place};
use sweep_text::{Command, LineFault, read_line};

/// The most venues of a day.
const MAX_VENUES: usize = 16;

/// The sessions of a day's venues, its desk and its book.
#[derive(Drop)]
pub struct Day {
    pub(crate) alloc: Global,
    pub(crate) names: Vec<VenueName>,
    pub(crate) lines: Vec<Line>,
    pub(crate) desk: Desk,
    pub(crate) book: Book,
    ghost few: { length names.items ≤ 16 },
}

impl Day {
    /// The core of a day of these venues, on which nothing was done.
    pub fn of(alloc: Global, setup: &[u8]) -> Result<Day, Stopped> {
        let (names, lines) = venues_of(alloc, setup)?;
        let venues = names.len();
        if venues < 1 || venues > MAX_VENUES {
            return Err(Stopped::BadSetup);
        }
        let desk = Desk::new(alloc, venues as u8).map_err(|_| Stopped::OutOfMemory)?;
        let book = Book::new(alloc, venues as u8).map_err(|_| Stopped::OutOfMemory)?;
        Ok(Day {
            alloc,
            names,
            lines,
            desk,
            book,
        })
    }

    /// Does what the host says, and tells what came of it.
    pub fn take(&mut self, event: &[u8], said: &mut Said) -> Result<(), Stopped> {
        let Some((stamp, event)) = read_event(event) else {
            return said.line("refused not understood");
        };
        match event {
            Event::Sweep(line) => self.place(line, said),
            Event::Totals(number) => self.tell_totals(number, said),
            Event::Venue(name, event) => self.take_of_venue(name, event, &stamp, said),
        }
    }

    /// Places the sweep that a line asks for, at desk and book or at neither.
    fn place(&mut self, line: &[u8], said: &mut Said) -> Result<(), Stopped> {
        let sweep = match read_line(self.alloc, self.names.as_slice(), line) {
            Ok(
                Command::Sweep(
                    Submission {
                        reference: None,
                        sweep,
                    },
                ),
            ) => sweep,
            Ok(_) => return said.line("refused not understood"),
            Err(LineFault::OutOfMemory) => return Err(Stopped::OutOfMemory),
            Err(fault) => {
                let text = format!(in self.alloc; "refused {fault}")?;
                return said.line(&text);
            }
        };
        let text = match place(&mut self.desk, &mut self.book, sweep) {
            Ok(receipt) => {
                let number = receipt.number;
                let shares = receipt.shares;
                format!(in self.alloc; "sweep {number} shares {shares}")?
            }
            Err(ReleaseFault::OutOfMemory) => return Err(Stopped::OutOfMemory),
            Err(fault) => format!(in self.alloc; "refused {fault}")?,
        };
        said.line(&text)
    }

    /// The five parts of a sweep's shares.
    fn tell_totals(&self, number: u64, said: &mut Said) -> Result<(), Stopped> {
        let Some(totals) = self.book.totals(number) else {
            return said.line("refused no such sweep");
        };
        let filled = totals.filled;
        let busted = totals.busted;
        let cancelled = totals.cancelled;
        let withdrawn = totals.withdrawn;
        let open = totals.still_open;
        let text = format!(in self.alloc;
            "totals {number} filled {filled} busted {busted} cancelled {cancelled} withdrawn {withdrawn} open {open}"
        )?;
        said.line(&text)
    }
}
