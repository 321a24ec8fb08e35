//! What the commands of the program share: how a run ends, and how bytes and frames are read and written.
//!
//! Promises:
//! - What is shown of a frame is read back as that frame (`bytes_of`).
#![tactic(auto)]

mod exit_status;
mod fault;
mod frame_text;
mod input;
mod out;

pub use exit_status::{finish, tell};
pub use fault::Fault;
pub use frame_text::{bytes_of, shown};
pub use input::{InputFault, read_up_to};
pub use out::{WriteFailed, print};
