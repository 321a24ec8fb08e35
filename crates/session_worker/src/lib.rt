//! The worker of one venue: it owns the session with the venue's exchange and the link, takes the venue's legs from its
//! ring, sends them, reads the exchange, books what comes, and ends with the day. Beside it the audit of a whole day.
//!
//! Promises:
//! - `Worker::run`: there is a list of events, calls of its session and legs taken, by which its session is that after
//!   these calls, from the start on, and the legs that it took are just those of the events, in order. A leg is handed
//!   to the session only where that is up; one is dropped there only in a turn that found the venue held, or where no
//!   number is left (`Heeds`, private). The notes confirmed are just those that the book took on its seat, in order.
//!   The legs that it was asked to withdraw are just those its session names as withdrawn, and those not sent, in
//!   order. It ended as `Closed` exactly where the last turn left the session closed, else as `TurnLimit` or `Stopped`.
//!   So whatever is promised of a session over any calls holds of a worker's, whatever its link gives.
//! - Where the link tells its traffic, the same events say what went over it. A connection is dialled just before each
//!   Connect. The messages that the session receives on it are the first ones of the bytes read on it, in order, none
//!   left out. The frames of the session's answer to each call are written, whole and once and in order, or the first
//!   bytes of them, and then the connection is given up. Nothing else is written.
//! - A worker's journal is told the line of each of these events, in order, and nothing else (`Runs`, field `tells`). A
//!   call is told once the session has made it and before its frames are written; a leg is told before the book is
//!   asked to withdraw it. No byte is written, and no leg withdrawn, while a line is left to keep: `Door::write` of
//!   `kept_link` requires it. A journal that has no room makes its worker wait.
//! - A leg that the book was asked to withdraw is counted as withdrawn just where it did, and the worker's seat then
//!   gains its shares; where it refused, the refusal is counted (`WorkerState::withdraw` and `withdraw_all`, private).
//!   What a worker tells on its board is claimed nowhere.
//! - `WorkerEnd::in_doubt` gives exactly the ordinals of the legs taken that the session has in doubt.
//! - `run_all` promises the same of each of its workers, in order.
//! - `audit` is `Ok` exactly where each worker took the first legs released to the venue at its place, the workers'
//!   seats add up to what the book has resolved and the callers' to what the desk placed; else it names the first
//!   that isn't so, or answers A04, where there is no memory to take the ends apart. With all seats and one end for
//!   each venue, in order, it names none, whatever the threads did. The day that was audited has the list of the notes
//!   that its book didn't take.
//! - That a leg is ever taken, sent or settled is claimed nowhere.
//!
//! See `docs/worker.md`; of the audit `docs/locks.md`.
#![tactic(auto)]

mod audit_fault;
mod auditing;
mod day_report;
mod doubt_count;
mod end_reason;
mod fencing;
mod gates;
mod open_shares;
mod pace;
mod patience;
mod reading;
mod redial;
mod reporter;
mod restoring;
mod run_fault;
mod running;
mod session_io;
mod takings;
mod telling;
mod timer;
mod withdrawal_counts;
mod worker;
mod worker_end;
mod worker_state;

pub use audit_fault::AuditFault;
pub use auditing::{audit, audit_opened};
pub use day_report::DayReport;
pub use end_reason::EndReason;
pub use gates::shut_gate;
pub use pace::Pace;
pub use restoring::{RedoFault, Start};
pub use run_fault::RunFault;
pub use running::{run_all, run_all_until};
pub use worker::Worker;
pub use worker_end::WorkerEnd;
