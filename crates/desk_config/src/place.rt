//! Where a fault stands.

ghost use Rattle.std.specs.Prelude.{Some};
ghost use Rattle.desk_config.specs.Fault.{place_text};

use crate::user::UserName;
use desk_words::VenueName;
use std::fmt;

/// A table of the file.
#[derive(Debug, PartialEq, Eq, Drop)]
pub enum Place {
    /// The file itself, outside its tables.
    File,
    /// `[desk]`.
    Desk,
    /// `[limits]`.
    Limits,
    /// A `[[venue]]`: which one, counted from 1, and its name where that is one.
    Venue {
        number: usize,
        name: Option<VenueName>,
    },
    /// A `[[user]]`, likewise.
    User {
        number: usize,
        name: Option<UserName>,
    },
}

impl fmt::Display for Place {
    ghost output = { λ place. Some (place_text place) };

    fn fmt<W: fmt::Write>(&self, f: &mut fmt::Formatter<W>) -> fmt::Result {
        match self {
            Place::File => Ok(()),
            Place::Desk => write!(f, "desk: "),
            Place::Limits => write!(f, "limits: "),
            Place::Venue { number, name: None } => write!(f, "venue {number}: "),
            Place::Venue {
                number,
                name: Some(name),
            } => write!(f, "venue {number} ({name}): "),
            Place::User { number, name: None } => write!(f, "user {number}: "),
            Place::User {
                number,
                name: Some(name),
            } => write!(f, "user {number} ({name}): "),
        }
    }
}
