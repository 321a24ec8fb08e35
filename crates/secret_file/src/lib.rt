//! A secret, read from a file of its own: the token of a user, or a password.
//!
//! Promises:
//! - What a file gives is its one line, without its end, of 1 to N printable bytes (`secret_of`). Whether others than
//!   its owner may open a file is a clause over its mode (`is_open_to_others`).
//! - Which bytes and which mode a file has no contract says.
#![tactic(auto)]

mod fault;
mod secret;

pub use fault::SecretFault;
pub use secret::read_secret;
