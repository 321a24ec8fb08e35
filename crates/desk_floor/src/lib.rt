//! What the threads of a desk's day share: the desk and the book behind their locks, the venues as they are seen, the
//! count of what was placed, and the signals by which the day closes.
//!
//! Promises:
//! - A sweep that is handed in is judged by the day's limits, and answered with what the desk and the book did, under
//!   the name of the venue that is to blame: with a limit exactly where it is over one, and what is placed is within
//!   each (`IsReleased`). Or it is shown that the day is closing, by what only its own flag gives (`Closing`), as a
//!   client gets it that has the day closed (`Floor::ask_to_close`). The caller's seat keeps its parts. Where the sweep
//!   is placed, the seat gains it, once, under the number that is answered, and its shares; else it gains nothing
//!   (`Floor::hand_in`). The clients of the page count on a seat of their own, which has one part of the run whenever
//!   its lock is free (`Counter`).
//! - Under a reference a sweep is placed at most once. No two of the sweeps that were placed under references have one
//!   reference; what is answered to a known one is the number and the shares that were placed under it, for the same
//!   legs, and then nothing is placed. Other legs are refused, and out of memory nothing is placed. Where a sweep is
//!   placed, it is one entry more; else they stay (`AnswersOnce`, of `Refs::place`). Which moment's entries a call
//!   outside of their lock finds isn't said.
//! - Where the day has a journal, the desk's lies under its lock, and has kept of each sweep that it was placed before
//!   the sweep is answered (`release_lock`). It is given the line of the caller; that this asks for the very sweep is
//!   only tested. What a life before placed under a reference is noted once (`Refs::note_again`). A journal is told by
//!   its name, where it stands otherwise than it was told to (`JournalWatch::news`).
//! - How a venue stands follows from what its worker told last, its gate and the dial that failed last, by the stated
//!   definition, and so does what is told of it (`standing_of`, `Standing::state`). How a leg stands follows from the
//!   book and from how far its venue's worker is (`state_of`). What a look finds there isn't said, as other threads
//!   write it.
//! - A leg is told as a book has it that its own history leads to, with what was paid for it (`paid_leg_now`, private),
//!   as a sweep is by crate `day_sweeps`; and the legs of a sweep in the order of their places, each with the terms
//!   that a desk of such a history released (`sweep_legs`). Among the legs released to a venue the one of a number is
//!   found, if there is one (`released_leg`, private).
//! - A venue is told under the name at its place, with how many legs such a desk released to it beyond those that its
//!   worker told as taken (`venue_status`). A day's open shares are those placed less those that such a book resolved
//!   (`Floor::totals`). Which moment's book or desk a look finds isn't said.
//! - The entries of the book's history that a look goes through give exactly the sweeps that they are about
//!   (`note_entries`, private), and so do the notes that it didn't take (`note_unbooked`, private). That each is gone
//!   through once is only tested.
//! - A halt puts each gate down that is up, and nothing else (`Floor::halt_desk`, private), and a pause that of one
//!   venue. No gate of a venue that is held goes up (the lock's invariant, `release_lock`). How long the answer waits,
//!   and that nothing is sent after it, is only tested.
//! - The count of refused sweeps by their reasons, and the last of them, are only tested. So is how long a sweep waits
//!   for room (`Floor::await_room`).
//!
//! See `docs/run.md`.
#![tactic(auto)]

mod asking;
mod awaiting;
mod bells;
mod changes;
mod counter;
mod floor;
mod halt_mark;
mod hand_in;
mod holding;
mod journal_watch;
mod legs;
mod refs;
mod refusals;
mod signals;
mod standing;
mod status;
mod talk_fault;
mod venue_view;
mod voice;

pub use bells::Bells;
pub use changes::Changes;
pub use counter::Counter;
pub use floor::{Floor, Left};
pub use halt_mark::HaltMark;
pub use holding::Stopped;
pub use journal_watch::{JournalNews, JournalWatch};
pub use legs::{LegStanding, sweep_legs};
pub use refs::Refs;
pub use refusals::{Refusals, RefusedCounts, RefusedSince};
pub use signals::{Begun, Closing, Manner, Signals};
pub use standing::{Held, Standing};
pub use status::venue_status;
pub use talk_fault::TalkFault;
pub use venue_view::{Seen, VenueView};
pub use voice::Voice;
