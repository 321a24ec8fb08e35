//! The lines of a desk's day over TCP and a Unix socket: clients come in, say who they are, and send lines as the
//! standard input does.
//!
//! Promises:
//! - The caller of the standard input keeps the parts of its seat while clients are served (`take_all_lines`).
//! - A first line is a user's exactly where it is `token ` and then the user's token (`user_of`, private).
//! - What is answered to lines is said by `desk_talk`. That at most 32 clients are served at once, that a slow one
//!   costs no other anything, and that each is let go at the end of the day, is only tested.
//!
//! See `docs/run.md`.
#![tactic(auto)]

mod door;
mod entrance;
mod greeting;
mod line_stream;
mod running;
mod server;
mod user;

pub use door::{close_socket, open_door, open_socket};
pub use running::take_all_lines;
pub use server::LineServer;
pub use user::{ClientToken, User};
