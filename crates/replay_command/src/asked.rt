//! What the words of `dispatch replay` ask for.

use crate::shown::Shown;

/// What is done with a script.
#[derive(Clone, Copy, Debug)]
pub enum Task {
    /// It is read, and not run.
    Check,
    /// It is run, and this is printed of its day.
    Run(Shown),
}

/// What the words of `dispatch replay` ask for.
#[derive(Clone, Copy, Debug)]
pub struct Asked<'a> {
    pub task: Task,
    /// The file that has the script, if it isn't standard input.
    pub file: Option<&'a str>,
    /// The file that the picture of the day is written into, if one is.
    pub ladder: Option<&'a str>,
}
