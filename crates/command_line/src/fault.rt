//! What every fault of a command tells.
ghost use Rattle.std.specs.Prelude.{◌≡◌, ℕ};

use std::fmt::Display;

/// Why a run failed: its text, and the exit status that tells it.
///
/// The statuses are 2 for the command line, 3 for a bad value or line, 4 for a failed read or write, or where there is no
/// socket or thread, 5 for memory, and 6 for an audit that fails.
pub trait Fault: Display {
    // the exit status that tells a fault
    ghost status_of: { Self → ℕ };

    /// The exit status that tells it.
    fn status(&self) -> u8
        ensures { result ≡ status_of self.now };

    /// What is wanted in the place of what is at fault, or why it is one: a line behind that of its text, if there is more to
    /// say.
    fn reason(&self) -> Option<&'static str>;

    /// Whether its text ends in a line's end already, as a text of the command line's parser does.
    fn ends_line(&self) -> bool;
}
