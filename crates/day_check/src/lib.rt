//! The logs of a day are checked: which rules the messages of a venue's log break, whether they are what the session
//! writes, and what the desk's own log says; and the text of all that.
//!
//! Promises:
//! - `print_log` says of the lines that it read exactly what the rules do (`ChecksLog`): what is known behind them,
//!   whether a rule is broken, and, where text is printed, that it is the log's (`log_text`): for each line, in their
//!   order, the execution that it tells, where that is asked for, and a finding for each rule that it breaks, in the
//!   order of the rules; a note where the log ends within a line, a line for each rule, how many reports weren't
//!   counted, and where it is asked for how many executions there were, and what became of its orders. The lines are
//!   those of the bytes that the reader tells, and so is what is left (`AreCutLines`).
//! - The execution of a line is exactly that of `execution_of` of `log_legs`, by what is known behind the lines before
//!   it (`line_execution`), and the counts are those of these executions (`counted_if`).
//! - `print_exact` prints how many frames of a log held and the first line that didn't, and answers whether there is
//!   one (`HoldsExactly`). That `explain` of `session_trace` answered so isn't said.
//! - `read_sweeps` hears each line of the desk's log exactly as the definition does (`HearsLog`). `print_sweeps` prints
//!   the sums of each sweep (`sweeps_text`).
//! - A line that isn't one of a log is named with its own fault (`NamesBadLine`, `NamesBad`).
//! - That `print_exact` takes the dialect that the head of a log names (`log_head`) isn't said.
//! - `fault_json` is exactly the object of a fault (`fault_json` in `ToldFault.antt`).
//! - Not said: which words stand for a rule (they are those that `Printing` has), and of other JSON more than the form
//!   of each line (`json_line`).
#![tactic(auto)]

mod checked_log;
mod exact;
mod execution_counts;
mod execution_json;
mod execution_text;
mod fault;
mod finding;
mod form;
mod input;
mod json;
mod judge;
mod legs_json;
mod line_told;
mod log_check;
mod print_day;
mod rule_words;
mod shown;
mod sweeps_log;
mod tallies;
mod told_fault;

pub use checked_log::{CheckedLog, print_log};
pub use exact::{DialectBy, print_exact};
pub use execution_counts::ExecutionCounts;
pub use fault::LogFault;
pub use finding::Printing;
pub use form::Form;
pub use input::read_line_at;
pub use print_day::{LinePlace, broken_sentence, print_sweeps, verdict_text};
pub use rule_words::RuleWords;
pub use sweeps_log::read_sweeps;
pub use told_fault::{ToldFault, fault_json};
