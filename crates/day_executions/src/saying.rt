//! What exchanges said beside what was heard.

ghost use Rattle.std.specs.Prelude.{◌≡◌, map, IfOk};
ghost use Rattle.day_executions.specs.Executions.{said_by};

use crate::heard::HeardNote;
use crate::lent::SaidNote;
use report_words::{ReportWords, WordList};
use std::alloc::{AllocError, Global};

/// What was heard, with the words that were kept under its number.
fn said_by(words: &WordList, note: HeardNote) -> SaidNote
    ensures { result ≡ said_by words.now note }
{
    let before = note.number.saturating_sub(1) as usize;
    let words = match words.get(before) {
        Some(words) => words,
        None => ReportWords::none(),
    };
    SaidNote { note, words }
}

/// What was heard, each with the words that were kept under its number. The only refusal is out of memory.
pub(crate) fn with_words(
    alloc: Global,
    words: &WordList,
    notes: Vec<HeardNote>,
) -> Result<Vec<SaidNote>, AllocError>
    ensures { IfOk result (λ said. said.items ≡ map (said_by words.now) notes.items) }
{
    let mut said = Vec::with_capacity(alloc, notes.len())?;
    for note in notes {
        said.push(said_by(words, note))?;
    }
    Ok(said)
}
