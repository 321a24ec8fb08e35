//! What is said while a desk's day runs: the standard input and each client on a connection is a caller, whose lines
//! are taken in order and answered on a voice of its own; and a keeper tells what changes and closes the day.
//!
//! Promises:
//! - The seat of the standard input keeps its parts (`take_lines`).
//! - A sweep is handed in, and the day closed, only for a caller who has the right to (`carry_out`, `close`, private).
//!   A sweep is answered as the day's floor answers it, and counted on the caller's own seat where it is placed
//!   (`hand_in`, private); a client that has the day closed sets the flag of this very day (`close`).
//! - A line is logged without the token that it names (`without_token`, private).
//! - All that is done here is proved to be safe. What is answered and told is the work of the crates below, and said
//!   there: `desk_floor` (`Floor::hand_in`), `day_sweeps` (`paid_sweep_now`), `sweep_text` and `desk_news`.
//! - The executions that are told are those that `day_executions` lends, by their numbers: all, or those alone that the
//!   book didn't take, which are told in any case. That each is told once, that lines are answered in their order, that
//!   a venue and a sweep are told when they change, that a second `close` gives the day up, that a line without its end
//!   is none of a client's, and that a day closes once no share is open or its patience is over, is only tested.
//!
//! See `docs/run.md`.
#![tactic(auto)]

mod caller;
mod callers;
mod client;
mod executions;
mod hold;
mod hold_answer;
mod input_lines;
mod keeper;
mod news;
mod open_sweeps;
mod rights;
mod said;
mod status;
mod told_sweeps;

pub use caller::{LinesEnd, take_lines};
pub use callers::{Callers, MOST_CONNECTIONS};
pub use client::{Guest, serve_client};
pub use hold_answer::say_halted;
pub use input_lines::{DeskInput, InputLines, Next};
pub use keeper::keep;
pub use rights::{Right, Rights};
pub use said::{ClientName, MAX_NAME, Said};
