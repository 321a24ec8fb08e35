//! What a start goes on with from a day's journals: the desk, each venue's session and what it took, the seats, the
//! book and the references, made anew from the lines that are kept, by the same calls as on the day.
//!
//! Promises:
//! - `restore_day` places again what the desk's lines say was placed, in order and under the same numbers
//!   (`PlacesAgain`). Each venue's start goes on from its lines (`GoesOn`): a worker that begins with it is what their
//!   deeds, and the end of its connection, left of a new one. That is said where a worker may do these deeds.
//! - What is told of the day is of those sweeps and starts (`TellsDay`). A refusal names a line that there is.
//! - `DayFiles` has what was found under `desk` and under each venue's name, in their order, and under the words that
//!   `JournalNames` makes of the day.
//! - A journal goes on behind the lines that were found. A venue's is first told that its connection is gone.
//! - The words in the heads of journals name the day, the desk, and of a venue its comp ids, its dialect and its terms.
//! - Worked cases of `restored_desk` and `restored_session` compute.
//!
//! Not said: that the lines of several venues are done again in the order of their times.
//!
//! See `docs/journal.md`.
#![tactic(auto)]

mod day_files;
mod day_journal;
mod desk_past;
mod earlier;
mod gone;
pub mod laws;
mod restored;
mod told;
mod words;

pub use day_files::{DayFiles, DayJournals, JournalNames};
pub use day_journal::DayJournal;
pub use desk_past::Placed;
pub use restored::{RestoredDay, VenuePast, restore_day};
pub use told::{Restored, VenueRestored};
pub use words::{desk_words, venue_words};
