//! The files of a day's folder.

ghost use Rattle.std.specs.Prelude.{Some};
ghost use Rattle.day_log.specs.Header.{file_text};

use desk_words::VenueName;
use std::fmt;

/// A file of a day's folder: the messages of a venue, or the lines that the desk took and what they were answered.
#[derive(Debug, PartialEq, Eq, Drop)]
pub enum LogFile {
    /// `NYSE.log`.
    Venue(VenueName),
    /// `sweeps.log`.
    Sweeps,
}

impl fmt::Display for LogFile {
    ghost output = { λ file. Some (file_text file) };

    fn fmt<W: fmt::Write>(&self, f: &mut fmt::Formatter<W>) -> fmt::Result {
        match self {
            LogFile::Venue(name) => write!(f, "{name}.log"),
            LogFile::Sweeps => write!(f, "sweeps.log"),
        }
    }
}
