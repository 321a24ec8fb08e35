//! The logs of a desk's day: a link that notes what goes over it, the day's folder, and the thread that writes.
//!
//! Promises:
//! - A `LoggedLink` keeps the laws of `Link` with the traffic of the link that it hands its calls to.
//! - Where a log is kept, a `Recorder` notes what each call asks for and nothing else (`after_taking`, `after_read`,
//!   `after_hearing`, `after_end`): the messages that were written whole, by however many writes
//!   (`written_messages_are_noted`), and those that the session heard, in however many reads they came
//!   (`heard_frames_are_noted`), in order and with all their bytes. What came in front of a message that was heard is
//!   noted with it; no byte of it is lost (`no_byte_is_lost`), and each frame that was written is split off of it
//!   (`written_frames_are_split_off`). What is noted is kept for contracts alone; that a line of it is put into the log
//!   is what `Noting::note` does, and no clause says it.
//! - The lines at the head of a venue's log, the names of the files and the text of each fault are the stated ones
//!   (`header_text`, `file_text`, `fault_text`).
//! - `open_logs` gives a log for each venue and one for the lines, and answers `NameTaken` exactly where a venue is
//!   called `sweeps`; so does `go_on_with_logs`, for a day that is gone on with. What that writes behind a log is
//!   `lacks` of how it was left. What is put under a log's lock, that a file is there or isn't, how it was left, and
//!   that the writer's thread comes to write are said nowhere: what it writes of a batch is `LogWriter`'s promise.
//! - What `Traffic` counts, how long orders wait to be written (`OrderTimes`), what a venue said as it logged out
//!   (`LogoutText`), and that others are told when a worker did something, is only tested.
#![tactic(auto)]

mod counts;
mod fault;
mod field;
mod file_writer;
mod folder;
mod frame_head;
mod going_on;
mod header;
pub mod laws;
mod line_log;
mod log_file;
mod logged_link;
mod logout_text;
mod noted;
mod order_times;
mod piece;
mod recorder;
mod split;
mod traffic;
mod venue_log;
mod way;

pub use counts::LogCounts;
pub use fault::LogFault;
pub use file_writer::{FileWriter, write_until};
pub use folder::{DayLogs, check_new_logs, open_logs};
pub use going_on::go_on_with_logs;
pub use header::{SWEEPS_HEADER, head_of_words, header_lines, words_text};
pub use line_log::LineLog;
pub use log_file::LogFile;
pub use logged_link::LoggedLink;
pub use logout_text::LogoutText;
pub use order_times::{BOUNDS, OrderTimes, moment};
pub use recorder::Recorder;
pub use traffic::Traffic;
pub use venue_log::VenueLog;
