//! The page and the interface for programs, served over TCP while a desk's day runs; and who takes part in such a day.
//!
//! Promises:
//! - Unless the day is closing, a sweep that comes over HTTP is answered as the day's floor answers it: with what
//!   became of it at a desk that replays from its own history, or as it was placed before under its reference. Where
//!   there is no memory for its line, one that has no reference is refused (`IsAnswered`, which stands for `places` of
//!   `desk_http`). Under a reference the sweep is found that was placed under it (`IsNumber`, for `finds`).
//! - The sweeps of a page are those behind the number that was asked for, in order, each as a book has it that its own
//!   history leads to, with what was paid for it, up to so many or to the first that such a book hasn't got (`IsPage`,
//!   for `pages`).
//! - The legs of a sweep are shown by their places up to the first that such a book hasn't got, each with its parts
//!   there, what was paid for it, the terms with which a desk of such a history released it, and its venue's name. One
//!   is left out only where such a desk released no such leg, or its venue has no view or no name (`IsSweep`, for
//!   `shows`).
//! - Each venue that has a name and a view is shown, by its place, with how many legs such a desk released to it beyond
//!   those that its worker told as taken, and how many of its notes such a book didn't take, by the reason (`AreAll`,
//!   for `lists`). The number of sweeps is such a book's, and what became of their shares are sums over sweeps as such
//!   books had them (`IsSums`, for `sums_up`).
//! - The executions of a page are what such a book heard behind the number that was asked for, at most so many, taken
//!   or not, each with its number, all that it says, the words that were kept under its number, the book's answer, and
//!   the name at its venue's place, where what earlier looks found is an index of that day (`IsExecutions`, for
//!   `reports`).
//! - Each look is at some book or desk: which moment's, and that two looks are at the same one, isn't said. Nothing is
//!   known of the counts and states that workers tell, of the shares placed, of what the process uses, or of whether a
//!   page says that the day is closing.
//! - A client that has the day closed sets the flag of this very day, behind which no sweep is taken (`closes`, the
//!   meaning of `close` of `desk_http`).
//! - What a request may ask, and the texts of the answers, are said by `desk_http`. That the events are those of the
//!   day, that a client is answered in time, that a slow one delays no other, and that those who follow the day are
//!   told what changes, is only tested.
//!
//! See `docs/api.md`.
#![tactic(auto)]

mod cast;
mod client;
mod counted;
mod day_view;
mod entrance;
mod feed;
mod follower;
mod gate;
mod hall;
mod listener;
mod outgoing;
mod page;
mod page_server;
mod part_sums;
mod process;
mod rows;
mod shown;

pub use cast::{Cast, Ended};
pub use desk_http::{Rights, User};
pub use follower::tell_closed;
pub use page_server::{PageServer, open_page};
pub use process::PROCESS_FILE;
