//! A folder of a day's journals: files for the desk and for each session, locked against a second program.
//!
//! Promises:
//! - A `FileTape` is a tape (`Tape` of `journal_tape`) by the record of its calls. That a file does what its calls say
//!   is trusted: after a sync a crash leaves what was written, and before it each byte is the old one or the new one.
//!   With `Durable::Process` a crash is the end of the process alone. Its `make`, `write_at` and `sync` have to be
//!   read.
//! - A `FolderJournal` is a journal (`Journal`) whose lines are kept in files: where one fails or is full, the next one
//!   is begun, and has all lines that aren't kept. So `keep` may succeed when there is room again.
//! - `Found` is just what the bytes of files say (`AreFound`): the lines that each has behind its head, where no line
//!   is damaged, and the lines before it that its head counts. A whole line that is the record of none is named with
//!   its file, its number and its place (`MayRefuse`), and nothing is found then.
//! - `DayFolder::read` finds what some files say, as many as are listed under the name, and their heads have the words
//!   that it takes (`Reads`, `IsFoundUnder`). Contracts see what was found under which name (`FolderReads`).
//! - A `FolderJournal` begins behind all lines that were found, in the file behind theirs. A file that has kept lines
//!   is never made again (`IsNextFile`).
//! - What is kept in the file that a `FolderJournal` writes is its head, and the lines kept since it began
//!   (`file_has`).
//! - Whatever crashes leave of a journal's files over its lives (`AreLeft`), a start finds the lines that are kept, and
//!   behind them the first of those that were being written. It refuses none of the files
//!   (`laws::a_start_finds_what_was_kept`). What it takes of each file is what `file_has` and the invariant of
//!   `JournalWriter` say.
//! - The lock, which files are there, and that bytes are read of the file that is named, are only tested.
#![tactic(auto)]

mod durable;
mod fault;
mod file_tape;
mod folder;
mod folder_journal;
mod found;
mod head;
pub mod laws;
mod listed;
mod reads;
mod restart_fault;
mod room;
mod shown;

pub use durable::Durable;
pub use fault::FolderFault;
pub use file_tape::{FileTape, Making};
pub use folder::DayFolder;
pub use folder_journal::FolderJournal;
pub use found::{Found, read_journal};
pub use head::{Head, head_line, read_head};
pub use listed::{journal_path, list_journals};
pub use reads::FolderReads;
pub use restart_fault::{JournalRefused, RestartFault};
