//! Which sweeps of a book changed since it was looked at last, or were named by what it didn't take.

ghost use Rattle.std.specs.Prelude.{◌≡◌, ◌<◌, ◌≤◌, ◌+◌, ◌++◌, filter_map, length, option_to_list, IfOk, OnOk};
ghost use Rattle.desk_floor.specs.Changes.{changed_by, changed_in, opened_in, opened_with, sweep_of, sweep_said};

use dialect::Note;
use exec_collector::{Accounts, Collector, Unbooked};
use share_ledger::{Book, BookEntry};
use std::alloc::{AllocError, Global};
use std::sync::Wait;

/// How many entries of the history, and how many notes that the book didn't take, are looked at while its lock is held.
const MOST_ENTRIES: usize = 512;

/// How far the history of a book was looked at: so many entries, by which so many sweeps were opened.
#[derive(Clone, Copy, Debug, PartialEq, Eq)]
struct Cursor {
    entries: usize,
    sweeps: u64,
    ghost few: { sweeps ≤ entries },
}

/// The sweeps of a book that changed since it was looked at last, and those of which a note was given that it didn't
/// take. A look goes through what came since then, and through nothing before.
#[derive(Drop)]
pub struct Changes {
    cursor: Cursor,
    /// How many notes that the book didn't take were looked at.
    items: usize,
    sweeps: Vec<u64>,
}

/// The number of the sweep that a note is about, if it is about one.
fn sweep_of(note: &Note) -> Option<u64>
    ensures { result ≡ sweep_of note.now }
{
    match note {
        Note::Report(report) => Some(report.id.sweep()),
        Note::Refused(id) => Some(id.sweep()),
        Note::Unread(_) => None,
    }
}

/// The number of the sweep that an entry changed, if it is about one, where so many were opened before.
fn changed_by(before: u64, entry: &BookEntry) -> Option<u64>
    requires { before < 18446744073709551615 }
    ensures { result ≡ changed_by before entry.now }
{
    match entry {
        BookEntry::Opened(_) => Some(before + 1),
        BookEntry::Withdrawn(id) => Some(id.sweep()),
        BookEntry::Moved(_, note) => sweep_of(note),
    }
}

/// How many sweeps are opened with an entry, where so many were before.
fn opened_with(before: u64, entry: &BookEntry) -> u64
    requires { before < 18446744073709551615 }
    ensures value { result ≡ opened_with before entry.now }
    ensures most { result ≤ before + 1 }
{
    match entry {
        BookEntry::Opened(_) => before + 1,
        BookEntry::Withdrawn(_) => before,
        BookEntry::Moved(_, _) => before,
    }
}

/// Appends the number of a sweep, if there is one.
fn push_changed(sweeps: &mut Vec<u64>, changed: Option<u64>) -> Result<(), AllocError>
    ensures { OnOk result (sweeps.new.items ≡ sweeps.old.items ++ option_to_list changed) }
{
    if let Some(sweep) = changed {
        sweeps.push(sweep)?;
    }
    Ok(())
}

/// Appends the sweeps that these entries changed, before which so many were opened, and gives how many are opened with
/// them.
fn note_entries(
    sweeps: &mut Vec<u64>,
    before: u64,
    entries: &[BookEntry],
) -> Result<u64, AllocError>
    requires few { before + length entries.now ≤ 18446744073709551615 }
    ensures changed { IfOk result (λ _. sweeps.new.items ≡ sweeps.old.items ++ changed_in before entries.now) }
    ensures opened { IfOk result (λ after. after ≡ opened_in before entries.now) }
    ensures most { IfOk result (λ after. after ≤ before + length entries.now) }
{
    let mut after = before;
    for entry in entries {
        push_changed(sweeps, changed_by(after, entry))?;
        after = opened_with(after, entry);
    }
    Ok(after)
}

/// Appends the sweeps that these notes are about, which the book didn't take.
fn note_unbooked(sweeps: &mut Vec<u64>, unbooked: &[Unbooked]) -> Result<(), AllocError>
    ensures { OnOk result (sweeps.new.items ≡ sweeps.old.items ++ filter_map sweep_said unbooked.now) }
{
    for item in unbooked {
        push_changed(sweeps, sweep_of(&item.note))?;
    }
    Ok(())
}

/// The end of a book's history.
#[tactic(auto, using(day_sweeps::proofs::Booked::opened_few))]
fn end_of(book: &Book) -> Cursor {
    Cursor {
        entries: book.history().len(),
        sweeps: book.next_sweep() - 1,
    }
}

impl Changes {
    /// Of a book that wasn't looked at.
    pub fn new(alloc: Global) -> Changes {
        Changes {
            cursor: Cursor {
                entries: 0,
                sweeps: 0,
            },
            items: 0,
            sweeps: Vec::new(alloc),
        }
    }

    /// Of a book that was looked at to its end. It may wait for the book's lock.
    pub fn from_now<M: Accounts>(
        rt: &impl Wait,
        alloc: Global,
        collector: &Collector<M>,
    ) -> Changes {
        let (cursor, items) = collector.read_all(rt, |book: &Book, unbooked: &[Unbooked]| {
            (end_of(book), unbooked.len())
        });
        Changes {
            cursor,
            items,
            sweeps: Vec::new(alloc),
        }
    }

    /// Takes note of what was written since the last look, up to some hundred entries, and says whether there is more.
    fn note_history(&mut self, history: &[BookEntry]) -> Result<bool, AllocError> {
        let Cursor { entries, sweeps } = self.cursor;
        let end = history.len().min(entries.saturating_add(MOST_ENTRIES));
        let begin = entries.min(end);
        let sweeps = note_entries(&mut self.sweeps, sweeps, &history[begin..end])?;
        self.cursor = Cursor {
            entries: entries.max(end),
            sweeps,
        };
        Ok(end < history.len())
    }

    /// Takes note of what the book didn't take since the last look, up to some hundred notes, and says whether there is
    /// more.
    fn note_untaken(&mut self, unbooked: &[Unbooked]) -> Result<bool, AllocError> {
        let end = unbooked.len().min(self.items.saturating_add(MOST_ENTRIES));
        let begin = self.items.min(end);
        note_unbooked(&mut self.sweeps, &unbooked[begin..end])?;
        self.items = end;
        Ok(end < unbooked.len())
    }

    /// Takes note of what came since the last look, up to some hundred entries and notes, and says whether there is
    /// more.
    fn note(&mut self, history: &[BookEntry], unbooked: &[Unbooked]) -> Result<bool, AllocError> {
        let written = self.note_history(history)?;
        let untaken = self.note_untaken(unbooked)?;
        Ok(written || untaken)
    }

    /// Looks at a book: from then on the sweeps that changed are those too which changed since the last look. It may
    /// wait for the book's lock, which it holds for some hundred entries at a time.
    pub fn look<M: Accounts>(
        &mut self,
        rt: &impl Wait,
        collector: &Collector<M>,
    ) -> Result<(), AllocError> {
        for _ in 0..u64::MAX {
            let more = collector.read_all(rt, |book: &Book, unbooked: &[Unbooked]| {
                self.note(book.history(), unbooked)
            })?;
            if !more {
                break;
            }
        }
        self.sweeps.sort_unstable();
        self.sweeps.dedup();
        Ok(())
    }

    /// The numbers of the sweeps that changed, or of which a note was given that the book didn't take, each once and in
    /// order. Such a note may name a sweep that wasn't opened.
    pub fn sweeps(&self) -> &[u64] {
        self.sweeps.as_slice()
    }

    /// They were told.
    pub fn told(&mut self) {
        self.sweeps.clear();
    }
}
