//! What a line is answered.

ghost use Rattle.std.specs.Prelude.{Some};
ghost use Rattle.desk_answers.specs.Answer.{answer_text};

use desk_words::VenueName;
use order_limits::Over;
use std::fmt;
use sweep_text::LineFault;

/// Why a sweep isn't placed. Where a venue is to blame it is named.
#[derive(Debug, PartialEq, Eq, Drop)]
pub enum Refusal {
    /// R01.
    NoLegs,
    /// R02: more than 32.
    TooManyLegs,
    /// R03: a leg names no venue of the desk.
    UnknownVenue,
    /// R04.
    GateDown(VenueName),
    /// R05.
    BacklogFull(VenueName),
    /// R06.
    SweepsSpent,
    /// R07.
    OutOfMemory,
    /// R08: desk and book don't belong together.
    WrongBook,
    /// R09: other legs were placed under its reference.
    OtherLegs,
    /// R10: the desk takes no sweep without a reference.
    NoReference,
    /// R11 to R15: it is over a limit of the desk. The venue is that of the leg which is to blame, if one is.
    OverLimit {
        venue: Option<VenueName>,
        over: Over,
    },
}

/// The answer to a line, in one line.
#[derive(Debug, PartialEq, Eq, Drop)]
pub enum Answer {
    /// The number of the sweep, and the shares of all its legs.
    Placed { sweep: u64, shares: u64 },
    /// Nothing is placed: these legs were placed before under the same reference, as this number.
    Again { sweep: u64, shares: u64 },
    Refused(Refusal),
    /// Refused, since the day is closing.
    Closing,
    /// Which line it was, counted from 1 over all lines.
    BadLine { number: u64, fault: LineFault },
}

impl fmt::Display for Refusal {
    ghost use Rattle.desk_answers.specs.Answer.{refusal_text};

    ghost output = { λ refusal. Some (refusal_text refusal) };

    fn fmt<W: fmt::Write>(&self, f: &mut fmt::Formatter<W>) -> fmt::Result {
        match self {
            Refusal::NoLegs => write!(f, "R01: it has no legs"),
            Refusal::TooManyLegs => write!(f, "R02: it has more than 32 legs"),
            Refusal::UnknownVenue => write!(f, "R03: a leg is for no venue of the desk"),
            Refusal::GateDown(venue) => write!(f, "R04 {venue}: its gate is down"),
            Refusal::BacklogFull(venue) => write!(f, "R05 {venue}: its backlog is full"),
            Refusal::SweepsSpent => write!(f, "R06: the numbers of sweeps are spent"),
            Refusal::OutOfMemory => write!(f, "R07: out of memory"),
            Refusal::WrongBook => write!(f, "R08: the book isn't the desk's"),
            Refusal::OtherLegs => write!(f, "R09: its reference is another sweep's"),
            Refusal::NoReference => write!(f, "R10: it has no reference"),
            Refusal::OverLimit {
                venue: Some(venue),
                over,
            } => {
                let code = over.code();
                write!(f, "{code}: {venue} {over}")
            }
            Refusal::OverLimit { venue: None, over } => {
                let code = over.code();
                write!(f, "{code}: {over}")
            }
        }
    }
}

impl fmt::Display for Answer {
    ghost output = { λ answer. Some (answer_text answer) };

    fn fmt<W: fmt::Write>(&self, f: &mut fmt::Formatter<W>) -> fmt::Result {
        match self {
            Answer::Placed { sweep, shares } => write!(f, "placed {sweep} shares {shares}"),
            Answer::Again { sweep, shares } => write!(f, "placed {sweep} shares {shares} again"),
            Answer::Refused(refusal) => write!(f, "refused {refusal}"),
            Answer::Closing => write!(f, "refused: the day is closing"),
            Answer::BadLine { number, fault } => write!(f, "bad line {number}: {fault}"),
        }
    }
}
