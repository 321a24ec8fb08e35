//! An execution: what an exchange said, and what the book did with it.

ghost use Rattle.std.specs.Prelude.{◌≡◌, Some};
ghost use Rattle.desk_executions.specs.Execution.{execution_text, fault_text, kind_text, said_text};
ghost use Rattle.desk_executions.specs.Untaken.{untaken};
ghost use Rattle.desk_executions.specs.Words.{beside_text, fields_text};

use crate::untaken::{Untaken, why_untaken};
use crate::words::{BesideText, FieldsText};
use desk_words::{Printable, VenueName, shown};
use dialect::{DialectFault, Note, ReportKind};
use report_words::ReportWords;
use share_ledger::Applied;
use std::fmt;

/// The id of a report as it is shown: each of its 64 bytes takes at most four.
pub type IdShown = Printable<256>;

/// A price as it is shown: each of its 20 bytes takes at most four.
pub type PriceShown = Printable<80>;

/// An execution of a day: a note of an exchange with its words, and the book's answer.
#[derive(Debug, Drop)]
pub struct Execution {
    /// From 1, in the order of the book.
    pub number: u64,
    pub venue: VenueName,
    /// What the exchange said.
    pub note: Note,
    /// What the book did with it.
    pub answer: Applied,
    /// What the exchange said beside it.
    pub words: ReportWords,
}

impl Execution {
    /// Why the book didn't take it; none where it did.
    pub fn untaken(&self) -> Option<Untaken>
        ensures { result ≡ untaken self.now.note self.now.answer }
    {
        why_untaken(&self.note, self.answer)
    }
}

/// What a report says of its order.
#[derive(Drop)]
struct Kind(ReportKind);

impl fmt::Display for Kind {
    ghost output = { λ kind. Some (kind_text kind.0) };

    fn fmt<W: fmt::Write>(&self, f: &mut fmt::Formatter<W>) -> fmt::Result {
        match &self.0 {
            ReportKind::New => write!(f, "new"),
            ReportKind::Trade(fill) => {
                let shares = fill.shares();
                let price: PriceShown = shown(fill.px().as_bytes());
                write!(f, "fill {shares} at {price}")
            }
            ReportKind::Canceled => write!(f, "cancelled"),
            ReportKind::Rejected => write!(f, "rejected"),
            ReportKind::Expired => write!(f, "expired"),
            ReportKind::Bust { cancelled_id } => {
                let trade: IdShown = shown(cancelled_id.as_bytes());
                write!(f, "bust of {trade}")
            }
        }
    }
}

/// Why a report can't be read.
#[derive(Drop)]
pub struct UnreadText(pub DialectFault);

impl fmt::Display for UnreadText {
    ghost output = { λ fault. Some (fault_text fault.0) };

    fn fmt<W: fmt::Write>(&self, f: &mut fmt::Formatter<W>) -> fmt::Result {
        match self.0 {
            DialectFault::Missing(tag) => write!(f, "V01 missing tag {tag}"),
            DialectFault::Bad(tag) => write!(f, "V02 bad value of tag {tag}"),
            DialectFault::NotMarked => write!(f, "V03 not marked"),
            DialectFault::NotIoc => write!(f, "V04 not immediate or cancel"),
        }
    }
}

/// What an exchange said, under its number.
#[derive(Drop)]
struct Said<'a>(&'a Execution);

impl<'a> fmt::Display for Said<'a> {
    ghost output = { λ said. Some (said_text said.0.now) };

    fn fmt<W: fmt::Write>(&self, f: &mut fmt::Formatter<W>) -> fmt::Result {
        let number = self.0.number;
        let venue = &self.0.venue;
        let beside = BesideText(&self.0.words);
        match &self.0.note {
            Note::Report(report) => {
                let leg = report.id;
                let kind = Kind(report.kind.clone().unwrap());
                let exec: IdShown = shown(report.exec.as_bytes());
                write!(
                    f,
                    "execution {number} {venue} {leg} {kind} id {exec}{beside}"
                )
            }
            Note::Refused(leg) => { write!(f, "execution {number} {venue} {leg} refused{beside}") }
            Note::Unread(fault) => {
                let fault = UnreadText(*fault);
                let fields = FieldsText(&self.0.words);
                write!(f, "execution {number} {venue} {fault}{fields}{beside}")
            }
        }
    }
}

impl fmt::Display for Execution {
    ghost output = { λ execution. Some (execution_text execution) };

    fn fmt<W: fmt::Write>(&self, f: &mut fmt::Formatter<W>) -> fmt::Result {
        let said = Said(self);
        match self.untaken() {
            None => write!(f, "{said}"),
            Some(why) => write!(f, "unbooked {said}: {why}"),
        }
    }
}
