//! Some of what was heard.

use crate::heard::HeardNote;
use report_words::ReportWords;

/// What was heard under a number, with what the exchange said beside it.
#[derive(Debug, Drop)]
pub struct SaidNote {
    pub note: HeardNote,
    pub words: ReportWords,
}

/// Some of what was heard in a day.
#[derive(Debug, Drop)]
pub struct LentNotes {
    /// By rising numbers.
    pub notes: Vec<SaidNote>,
    /// How many there are in all: the number of the last one.
    pub last: u64,
}
