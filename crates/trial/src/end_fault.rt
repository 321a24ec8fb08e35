//! How a program ends.

use std::fmt;
use std::io::Write;

/// A fault with which a program ends.
pub trait EndFault: fmt::Display {
    /// The exit status: 2 for the command line, 4 for a failed read or write, 5 for memory, and 1 for what went wrong.
    fn status(&self) -> u8;
}

/// The exit status of a program of this name, which writes its fault as a line to `err`.
pub fn status_of<F: EndFault + Drop, E: Write>(name: &str, done: Result<(), F>, err: &mut E) -> u8 {
    match done {
        Ok(()) => 0,
        Err(fault) => {
            let _ = writeln!(err, "{name}: {fault}");
            fault.status()
        }
    }
}
