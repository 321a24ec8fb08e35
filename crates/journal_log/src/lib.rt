//! The message log of a venue, made of its journal: each line of the journal is done again on a session, and what that
//! writes is logged.
//!
//! Promises:
//! - A `LoggedSession` is a session alone. Its call does again what a line of the journal says (`calls_in`). It appends
//!   exactly the lines of that (`LogsDeed`): the message that was received, whole, and behind it each frame that the
//!   session's calls write, by the definitions of `session_core`, under the line's moment. The session is then that
//!   after these calls. A line that can't be read is its fault, and changes nothing.
//! - `print_log` prints a head and what all lines come to, in order (`PrintsLog`). At a line that can't be read it ends
//!   before that line, and names it with its number (`StopsAt`). It keeps no more of the log than some 64 KiB.
//! - `read_venue_head` gives a venue's head only where these are exactly its words (`head_words`), and the lines at the
//!   head of the log are `log_head`. That the words of each head are read isn't said.
#![tactic(auto)]

mod fault;
mod frames;
mod logged_session;
mod printing;
mod venue_head;

pub use fault::LogFault;
pub use logged_session::LoggedSession;
pub use printing::print_log;
pub use venue_head::{VenueHead, read_venue_head};
