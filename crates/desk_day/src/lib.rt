//! The two halves of a desk's day: what there is before its threads run, and what is told once they ended.
//!
//! Promises:
//! - `open_day` gives each worker the start at its place, and the callers a seat with all parts of the run but that of
//!   the clients.
//! - `close_day` audits what the workers left, and tells the rest of that audit (`IsTold`); it has placed what the
//!   callers' seats count, where there are no clients. What is told: the sweeps and the report of the audit; what was
//!   paid for each sweep by its book, and what is disputed of it by the list of what that didn't take; all that is on
//!   this list, by the names of the venues, each with the words that were kept under its number; each venue whose
//!   worker left legs in doubt, with all of them; and whether some worker gave its session up.
//! - Where none of that is told, nothing is left of the day (`IsWhole`, for `run_command`).
//! - There are words for each note, in the order in which the notes were given. That they are those which came with it
//!   is said by `DayBook::apply` (`exec_collector`), and isn't carried through the lock.
//!
//! See `docs/run.md`.
#![tactic(auto)]

mod closing;
mod day;
mod doubts;
mod ending;
mod followers;
mod opening;

pub use closing::close_day;
pub use day::{DeskDay, VenueDoubt};
pub use opening::{BegunDay, DeskCast, Means, OpenDay, Past, add_taker, begin_day, open_day};
