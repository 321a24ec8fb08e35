//! Why a connection ended.

ghost use Rattle.std.specs.Prelude.{Some};
ghost use Rattle.desk_news.specs.Cause.{cause_text};

use crate::ending::Ending;
use desk_words::Printable;
use session_core::Ended;
use std::fmt;

/// A text of others, as the system's error or a venue's Text (58), as it is shown: no more of it than 200 characters.
pub type Told = Printable<200>;

/// Why a connection ended.
#[derive(Debug, PartialEq, Eq, Drop)]
pub enum Cause {
    /// The session ended it.
    Ended(Ended),
    /// The session ended it on a message that has a text of the venue (58).
    Said { ended: Ended, text: Told },
    /// It was lost, or given up: why.
    Lost(Told),
}

impl fmt::Display for Cause {
    ghost output = { λ cause. Some (cause_text cause) };

    fn fmt<W: fmt::Write>(&self, f: &mut fmt::Formatter<W>) -> fmt::Result {
        match self {
            Cause::Ended(ended) => {
                let ending = Ending(*ended);
                write!(f, "{ending}")
            }
            Cause::Said { ended, text } => {
                let ending = Ending(*ended);
                write!(f, "{ending}: {text}")
            }
            Cause::Lost(why) => write!(f, "{why}"),
        }
    }
}
