//! What a log says of each order, and of the sweeps whose legs they are.
//!
//! Promises:
//! - `Watch::hear` judges a message exactly as `Checker` does, and keeps exactly the orders that the definitions give
//!   (`watched`): each once, with what the counted reports on it did to its shares. Where memory is refused nothing
//!   changes.
//! - `Watch::leg` says of each order what the definition says (`leg_said`): whether the exchange took it, or it was
//!   withdrawn, or is in doubt, and its shares in five parts.
//! - `legs_text` is exactly the text of the definition (`legs_text` in `LegLine.antt`): a line for each order, and then
//!   one for each sweep.
//! - `execution_of` says of a message exactly what the definition says (`execution_of`): whether it is a report or a
//!   refusal that counts, how a desk reads it, and why the desk's book doesn't take it.
//! - `SweepSums` has the sums of sweeps by their numbers (`sums_after`).
//! - Not said: that memory is refused only where the system does so.
#![tactic(auto)]

mod close;
mod execution;
mod fate;
mod kept_leg;
mod leg_heard;
mod leg_line;
mod leg_list;
mod leg_said;
mod lines;
mod logged;
mod report_note;
pub mod rows;
mod share_move;
mod share_parts;
mod sweep_sums;
mod watch;

pub use close::Close;
pub use execution::{Execution, Said, execution_of};
pub use fate::Fate;
pub use leg_line::{append_price, append_symbol, append_terms, side_shown};
pub use leg_said::LegSaid;
pub use lines::{legs_text, sums_of};
pub use logged::append_logged;
pub use report_note::{FieldWords, ReportNote};
pub use share_move::Move;
pub use sweep_sums::{SweepSums, SweepTotals, leg_id_in};
pub use watch::Watch;
