//! The book of what became of each leg's shares.

ghost use Rattle.std.specs.Prelude.{◌≡◌, ◌≤◌, IfOk, IfSome, OnErr, IsOkUnless};
ghost use Rattle.leg.specs.Answering.{Answers};
ghost use Rattle.leg.specs.Split.{IsSplit};
ghost use Rattle.dialect.specs.declared.note.Note.TheVariants as note;
ghost use Rattle.share_ledger.specs.Book.{new_book, answer_to, open_sweep, apply, withdraw, totals, leg_in, next_sweep, venue_resolved};
ghost use Rattle.share_ledger.specs.Kept.{IsLegOf, IsChange};

use crate::ledger::Ledger;
use crate::leg_change::LegChange;
use crate::reports::Reports;
use crate::{Applied, BookEntry, BookFault, BookedLeg};
use dialect::{Note, Report};
use leg::{LegId, Sweep, Totals, VenueId};
use std::alloc::Global;
use std::marker::Model;

/// What became of each leg's shares: the sweeps opened, the legs withdrawn and the notes of the venues, booked once
/// each. No call walks the history.
#[derive(Drop)]
pub struct Book {
    ledger: Ledger,
    /// The reports booked for each venue.
    reports: Vec<Reports>,
}

impl Model for Book {
    ghost use Rattle.share_ledger.specs.Book.{BookParts};

    ghost Value = { BookParts };

    ghost use Rattle.share_ledger.specs.Kept.{ledger_seen, IsKeptBook};

    ghost view = { λ book. ledger_seen book.ledger };

    ghost invariant = { λ book. IsKeptBook book.ledger book.reports.items };
}

impl Book {
    /// A book of 1 to 16 venues, in which nothing is written. B02.
    pub fn new(alloc: Global, venues: u8) -> Result<Book, BookFault>
        requires low { 1 ≤ venues }
        requires high { venues ≤ 16 }
        ensures ok { IfOk result (λ book. book ≡ new_book venues) }
        ensures only { IsOkUnless result BookFault.OutOfMemory }
    {
        let count = usize::from(venues);
        let ledger = Ledger::new(alloc, count)?;
        let mut reports = Vec::with_capacity(alloc, count)?;
        'each: for _ in 0..count {
            reports.push_reserved(Reports::new(alloc));
        }
        Ok(Book { ledger, reports })
    }

    /// Opens a sweep under its number, with all its shares open. B01, B04, B02. It reserves the place in the history
    /// that the withdrawal of each leg takes.
    pub fn open_sweep(&mut self, number: u64, sweep: &Sweep) -> Result<(), BookFault>
        ensures { Answers BookFault.OutOfMemory self.old (open_sweep self.old number sweep.now.legs) result self.new }
    {
        self.ledger.open_sweep(number, sweep)
    }

    /// Applies a note of a venue: only one that moves is booked. B02, and the note may be applied again.
    pub fn apply(&mut self, venue: VenueId, note: &Note) -> Result<Applied, BookFault>
        ensures answer { Answers BookFault.OutOfMemory self.old (apply self.old venue note.now) result self.new }
        ensures wanting { OnErr result (answer_to self.old venue note.now ≡ Applied.Moved) }
    {
        match note {
            Note::Report(report) => self.apply_report(venue, report),
            Note::Refused(id) => self.apply_refusal(venue, *id),
            Note::Unread(_) => Ok(Applied::Stray),
        }
    }

    /// Applies a report.
    fn apply_report(&mut self, venue: VenueId, report: &Report) -> Result<Applied, BookFault>
        ensures answer { Answers BookFault.OutOfMemory self.old (apply self.old venue (note.Report report.now))
            result self.new }
        ensures wanting { OnErr result (answer_to self.old venue (note.Report report.now) ≡ Applied.Moved) }
    {
        let change = match self.change_by(venue, report) {
            Ok(change) => change,
            Err(answer) => return Ok(answer),
        };
        self.ledger.reserve()?;
        self.reports[usize::from(venue.number())].book(report)?;
        let entry = BookEntry::Moved(venue, Note::Report(report.clone().unwrap()));
        self.ledger.settle(report.id, change.was, change.now, entry);
        Ok(Applied::Moved)
    }

    /// What a report makes of its leg, or the report's answer where it moves nothing.
    fn change_by(&self, venue: VenueId, report: &Report) -> Result<LegChange, Applied>
        ensures { IsChange self.now venue report.now result }
    {
        let was = self.leg_of(venue, report)?;
        if was.is_withdrawn() {
            return Err(Applied::Stray);
        }
        let reports = &self.reports[usize::from(venue.number())];
        match reports.moved(was, report) {
            Ok(now) => Ok(LegChange { was, now }),
            Err(answer) => Err(answer),
        }
    }

    /// The leg that a report is on, if it is of the report's venue and no report of that id was booked for the venue;
    /// else the report's answer.
    fn leg_of(&self, venue: VenueId, report: &Report) -> Result<BookedLeg, Applied>
        ensures { IsLegOf self.now venue report.now result }
    {
        let Some(leg) = self.ledger.leg(report.id) else {
            return Err(Applied::Stray);
        };
        if leg.venue != venue {
            return Err(Applied::Stray);
        }
        let reports = &self.reports[usize::from(venue.number())];
        if reports.has(&report.exec) {
            return Err(Applied::Duplicate);
        }
        Ok(leg)
    }

    /// Applies the refusal of a leg's order.
    fn apply_refusal(&mut self, venue: VenueId, id: LegId) -> Result<Applied, BookFault>
        ensures answer { Answers BookFault.OutOfMemory self.old (apply self.old venue (note.Refused id))
            result self.new }
        ensures wanting { OnErr result (answer_to self.old venue (note.Refused id) ≡ Applied.Moved) }
    {
        let Some(was) = self.ledger.leg(id) else {
            return Ok(Applied::Stray);
        };
        if was.venue != venue || was.is_withdrawn() {
            return Ok(Applied::Stray);
        }
        let mut now = was;
        now.parts.cancel_rest();
        self.ledger.reserve()?;
        let entry = BookEntry::Moved(venue, Note::Refused(id));
        self.ledger.settle(id, was, now, entry);
        Ok(Applied::Moved)
    }

    /// Withdraws a leg: it never reaches its venue. B03. It takes no memory.
    pub fn withdraw(&mut self, id: LegId) -> Result<(), BookFault>
        ensures { (result, self.new) ≡ withdraw self.old id }
    {
        self.ledger.withdraw(id)
    }

    /// The totals of a sweep, if it was opened.
    pub fn totals(&self, number: u64) -> Option<Totals>
        ensures { result ≡ totals self.now number }
    {
        self.ledger.totals(number)
    }

    /// The number that the next sweep has: one more than sweeps were opened.
    pub fn next_sweep(&self) -> u64
        ensures { result ≡ next_sweep self.now }
    {
        self.ledger.next_sweep()
    }

    /// A leg, if its sweep was opened.
    pub fn leg(&self, id: LegId) -> Option<BookedLeg>
        ensures value { result ≡ leg_in self.now id }
        ensures in_range { IfSome result (λ leg. IsSplit leg.parts) }
    {
        self.ledger.leg(id)
    }

    /// The shares of a venue's legs that are filled, busted, cancelled or withdrawn, 0 for a venue that isn't there.
    pub fn venue_resolved(&self, venue: VenueId) -> u64
        ensures { result ≡ venue_resolved self.now venue }
    {
        self.ledger.venue_resolved(venue)
    }

    /// The calls that changed the book, in order. They lead to it again from a new one.
    pub fn history(&self) -> &[BookEntry]
        ensures { result.now ≡ self.now.entries }
    {
        self.ledger.history.as_slice()
    }
}
