//! A link that puts a venue's own fields on each frame that is written: behind the header of every message, and behind
//! the fields of a Logon, with the password last.
//!
//! Promises:
//! - `DressedLink` keeps the laws of `Link`. Its own traffic is what its caller wrote and read, undressed: so what
//!   stands above it, as a session, its log and its journal, neither sees the dress nor the password.
//! - What went to the link below is, with what is pending, the dressing of what was taken on the connection, frame by
//!   frame, and nothing else. Of a connection that ended a beginning of that went there. What is read is handed on as
//!   it comes. This is so of a new link, and each call keeps it (`Carries`: `DressedLink::new`, and `Dresser`,
//!   private).
//! - A write takes the valid frame at the front of its bytes, whole, or answers a fault: bytes that begin with no valid
//!   frame aren't sent, dressed or not. After a write nothing is pending, unless the link below counted a fault
//!   (`Dresser::write`, private); the next read or write then writes the rest first, or fails. So the fault of a broken
//!   connection may come one call later than without a dress.
//! - A refusal of memory takes nothing and writes nothing of the frame (`Dress::put_on`, private).
//! - With a bare dress each call is handed on (`DressedLink::new`, `wire_over`): one branch, and no copy.
//! - What a dressed frame is: `laws`. A dressed frame is a valid frame (`dressed_frames_are_valid`); one that was
//!   written is taken (`written_frames_are_taken`); all its fields stand where they stood (`fields_are_put_between`); a
//!   reader of messages reads the same message (`dressed_messages_read_the_same`).
//! - A `Secret` is lent to the dresser alone: it has no `Clone` and no `Display`, and its `Debug` prints `***`. That no
//!   byte of it is kept elsewhere in the process's memory isn't said.
#![tactic(auto)]

mod dress;
mod dress_fault;
mod dressed_link;
mod dresser;
pub mod laws;
mod secret;
mod told;

pub use dress::Dress;
pub use dressed_link::DressedLink;
pub use secret::{MAX_SECRET, Secret};
