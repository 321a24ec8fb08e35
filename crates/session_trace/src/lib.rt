//! The log of a line is explained: calls of a session are found that write what the log shows as sent.
//!
//! Promises:
//! - Where `explain` answers Ok, there is a configuration and there are calls of a new session of it by which the log
//!   came about (`IsOfSession` in `specs/Explained.antt`). `Shows` in `specs/Shows.antt` says how, line by line: what
//!   a call writes is due, as the frames of the definition's messages, each of one moment a call; a line that is sent
//!   is the first frame that is due, byte for byte; a line that is received is unheard until it is the first one and
//!   the session receives its message, or is told that it is none, or it has no valid frame in it. So each frame is
//!   shown before what is written on it. Where the connection is lost (`Broken`) what is due and what is unheard is
//!   lost with it, and then a session writes nothing before its next Logon: so what a log doesn't show stood last in
//!   its connection, or was due where the log ends.
//! - The same clause says so of all calls at once (`IsWritten` in `specs/Written.antt`): the session is that after
//!   these calls (`after_calls` of session_core), and the frames that the log shows as sent, and then those that are
//!   still due, are some of the frames of the messages of `steps_of` these calls, in order.
//! - `Trace::take` says the same of each line: where it answers Ok, calls that explain the log so far are followed by
//!   some that explain it with this line.
//! - Not said: that a log of our own is always explained, that the calls found are those that were made, or what the
//!   exchange did; and of an Err nothing: that the frame named is the one that the session writes is tested.
#![tactic(auto)]

mod difference;
mod sent_frame;
mod shown;
mod step_made;
mod trace;
mod whole_log;

pub use difference::{Difference, Differs};
pub use shown::Shown;
pub use trace::Trace;
pub use whole_log::explain;
