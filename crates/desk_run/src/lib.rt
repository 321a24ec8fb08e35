//! A desk's day: a worker for each venue of its file, an exchange inside the process for each that is simulated, a
//! caller that takes lines, hands their sweeps in and answers them, the servers of clients that send lines too, and
//! those of its page; what changes is told meanwhile, and at the end the day is audited.
//!
//! Promises:
//! - `run_day` is refused for want of an address, a page, a log, a socket, a thread or memory alone, since the audit
//!   finds no mismatch, whatever the threads do. The sweeps and the report that it tells at the end are those of the
//!   day that was audited (`IsDeskDay`): the worker of each venue ran from its start, and the audit was of what these
//!   workers left, and of the book that the sweeps are read from. The rest is told of the same audit (`IsToldDay`, by
//!   `desk_day`).
//! - Where it goes on with a day from journals the same is told, but each worker began with what the lines found in its
//!   journal say (`IsToldOver`, `IsBegun`), and the desk has the sweeps that its lines place again. Where journals are
//!   asked for each worker tells one (`IsToldKept`). What was found is said by `day_restart`. What the start tells, the
//!   references and the shares are handed on (`restored`, `past_of`, private). That the end of a day is kept is only
//!   tested.
//! - Why lines were broken off is told as `desk_talk` tells it, of which nothing is promised.
//! - What is promised of the venues and their workers is said by `desk_venues`, what is answered and told while the day
//!   runs by `desk_talk`, and of the threads by `desk_threads`. That a day ends is only tested.
//!
//! See `docs/run.md`.
#![tactic(auto)]

mod going_on;
mod running;

pub use running::{DayOptions, JournalAt, run_day};
