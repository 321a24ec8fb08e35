//! The venues of a desk's day: where each is reached, an exchange inside the process for each that is simulated, its
//! log, and its worker; and why a day can't be run.
//!
//! Promises:
//! - What opens the venues, and what runs their workers, is refused for no mismatch of the audit (`IsNoMismatch`).
//! - Each worker begins with the dialect and the terms of the venue at its place, and nothing went over its link
//!   (`open_venues`, `starts_of`). It runs from there, and what it leaves is handed on (`run_workers`, `AllRan`).
//! - A venue is dialled at the hosts of its addresses, in the file's order, and a simulated exchange where it listens
//!   (`open_places`, private). Each link is made with the goal, the venue's dress and the password at its place, and
//!   each worker with a link to its venue's, in its dress (`new_links`, `new_worker`, private). Which address a link
//!   dials for a host is said by `link`.
//! - A simulated exchange begins as one with the comp ids of its venue, and fills as the file says (`Exchange::open`);
//!   that it has the dialect is only tested.
//! - That the logs, where any are kept, hold the messages and lines of the day is only tested. What a log is, and that
//!   no fault of it reaches a session, is said by `day_log`.
//!
//! See `docs/run.md`.
#![tactic(auto)]

mod address;
mod day_fault;
mod dresses;
mod exchange;
mod hosts;
mod logs;
mod opened;
mod opening;
mod session;
mod views;
mod workers;

pub use address::first_address;
pub use day_fault::DayFault;
pub use dresses::no_secrets;
pub use exchange::{Exchange, Serve};
pub use logs::{LogFolder, check_new_logs};
pub use opened::{OpenVenues, open_venues};
pub use session::desk_end;
pub use views::Sight;
pub use workers::{DeskLink, DeskWorker, run_workers};
