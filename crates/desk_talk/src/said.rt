//! What a client is told beside the answers to its lines.

ghost use Rattle.std.specs.Prelude.{Some};
ghost use Rattle.desk_talk.specs.Said.{said_json, said_text};

use crate::rights::Right;
use desk_news::DayTotals;
use desk_words::Printable;
use json_lines::{Line, totals_json};
use std::alloc::{AllocError, Global};
use std::fmt;

/// The most bytes of a client's name.
pub const MAX_NAME: usize = 32;

/// What a client is called.
pub type ClientName = Printable<MAX_NAME>;

/// What a client is told beside the answers to its lines.
#[derive(Drop)]
pub enum Said<'a> {
    /// Its token is that of this name.
    Known(&'a ClientName),
    /// Its token is nobody's.
    WrongToken,
    /// Its first line, which has to be its token, is another.
    NoToken,
    /// So many are there as may be.
    Full,
    /// It lacks the right to what a line asks for.
    MayNot(Right),
    /// It is told what changes from now on.
    Follows,
    /// The day is closing.
    Closes,
    /// The day is over, with these shares.
    Over(DayTotals),
}

impl<'a> fmt::Display for Said<'a> {
    ghost output = { λ said. Some (said_text said) };

    fn fmt<W: fmt::Write>(&self, f: &mut fmt::Formatter<W>) -> fmt::Result {
        match self {
            Said::Known(name) => write!(f, "ok {name}"),
            Said::WrongToken => write!(f, "refused: wrong token"),
            Said::NoToken => write!(f, "refused: the first line has to be token TOKEN"),
            Said::Full => write!(f, "full: 32 connections, try again later"),
            Said::MayNot(right) => write!(f, "refused: this token may not {right}"),
            Said::Follows => write!(f, "following"),
            Said::Closes => write!(f, "closing"),
            Said::Over(totals) => write!(f, "{totals}"),
        }
    }
}

impl<'a> Line for Said<'a> {
    ghost json = { said_json };

    fn json(&self, alloc: Global) -> Result<String, AllocError> {
        match self {
            Said::Known(name) => format!(in alloc; "{{\"ok\":\"{name}\"}}"),
            Said::WrongToken => {
                String::from_str(alloc, "{\"refused\":\"token\",\"text\":\"wrong token\"}")
            }
            Said::NoToken => String::from_str(
                alloc,
                "{\"refused\":\"token\",\"text\":\"the first line has to be token TOKEN\"}",
            ),
            Said::Full => String::from_str(
                alloc,
                "{\"full\":32,\"text\":\"32 connections, try again later\"}",
            ),
            Said::MayNot(right) => format!(in alloc;
                "{{\"refused\":\"right\",\"text\":\"this token may not {right}\"}}"
            ),
            Said::Follows => String::from_str(alloc, "{\"following\":true}"),
            Said::Closes => String::from_str(alloc, "{\"closing\":true}"),
            Said::Over(totals) => totals_json(alloc, totals),
        }
    }
}
