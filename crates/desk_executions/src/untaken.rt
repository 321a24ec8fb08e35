//! Why the book didn't take a note.

ghost use Rattle.std.specs.Prelude.{◌≡◌, Some};
ghost use Rattle.desk_executions.specs.Untaken.{untaken, untaken_text};

use dialect::Note;
use share_ledger::Applied;
use std::fmt;

/// Why the book didn't take a note.
#[derive(Clone, Copy, Debug, PartialEq, Eq)]
pub enum Untaken {
    /// A report of that ExecID (17) was booked before for that venue.
    Duplicate,
    /// It trades more shares than are open.
    Overfill,
    /// It is on no leg of that venue or on a withdrawn one, or busts no trade of the leg.
    Stray,
    /// It can't be read.
    Unread,
}

/// Why the book didn't take a note that it answered so; none where it took it.
pub fn why_untaken(note: &Note, answer: Applied) -> Option<Untaken>
    ensures { result ≡ untaken note.now answer }
{
    match answer {
        Applied::Moved => None,
        Applied::Duplicate => Some(Untaken::Duplicate),
        Applied::Overfill => Some(Untaken::Overfill),
        Applied::Stray => match note {
            Note::Report(_) => Some(Untaken::Stray),
            Note::Refused(_) => Some(Untaken::Stray),
            Note::Unread(_) => Some(Untaken::Unread),
        },
    }
}

impl fmt::Display for Untaken {
    ghost output = { λ why. Some (untaken_text why) };

    fn fmt<W: fmt::Write>(&self, f: &mut fmt::Formatter<W>) -> fmt::Result {
        match self {
            Untaken::Duplicate => write!(f, "duplicate"),
            Untaken::Overfill => write!(f, "overfill"),
            Untaken::Stray => write!(f, "stray"),
            Untaken::Unread => write!(f, "unread"),
        }
    }
}
