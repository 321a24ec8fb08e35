//! Notes of a venue, as text.

use case_words::report_text;
use dialect::Note;
use std::alloc::{AllocError, Global};

/// What a note says, as `report S1L1 E2 trade 60 at 10.25`.
pub fn note_text(alloc: Global, note: &Note) -> Result<String, AllocError> {
    match note {
        Note::Report(report) => report_text(alloc, report),
        Note::Refused(id) => format!(in alloc; "refused {id}"),
        Note::Unread(_) => String::from_str(alloc, "unread"),
    }
}
