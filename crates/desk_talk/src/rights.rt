//! What a caller may ask for.

ghost use Rattle.std.specs.Prelude.{◌≡◌};
ghost use Rattle.desk_talk.specs.Rights.{has_right, lacking, right_of};

use std::fmt;
use sweep_text::Command;

/// What a caller has to be allowed.
#[derive(Clone, Copy, Debug, PartialEq, Eq)]
pub enum Right {
    /// To see how the day stands.
    Read,
    /// To submit sweeps.
    Trade,
    /// To close the day.
    Close,
    /// To halt the desk, to pause its venues, and to free them again.
    Halt,
}

/// What a caller may do.
#[derive(Clone, Copy, Debug, PartialEq, Eq)]
pub struct Rights {
    pub read: bool,
    pub trade: bool,
    pub close: bool,
    pub halt: bool,
}

impl Rights {
    /// Each right.
    pub const ALL: Rights = Rights {
        read: true,
        trade: true,
        close: true,
        halt: true,
    };

    /// Whether this right is among them.
    pub fn has(&self, right: Right) -> bool
        ensures { result ≡ has_right self.now right }
    {
        match right {
            Right::Read => self.read,
            Right::Trade => self.trade,
            Right::Close => self.close,
            Right::Halt => self.halt,
        }
    }
}

/// The right that a command needs; a remark needs none.
fn right_of(command: &Command) -> Option<Right>
    ensures { result ≡ right_of command.now }
{
    match command {
        Command::Nothing => None,
        Command::Status => Some(Right::Read),
        Command::Close => Some(Right::Close),
        Command::Sweep(_) => Some(Right::Trade),
    }
}

/// The right that a command needs and that isn't among these, if there is one.
pub(crate) fn lacking(may: Rights, command: &Command) -> Option<Right>
    ensures { result ≡ lacking may command.now }
{
    match right_of(command) {
        Some(right) if !may.has(right) => Some(right),
        _ => None,
    }
}

impl fmt::Display for Right {
    ghost use Rattle.std.specs.Prelude.{Some};
    ghost use Rattle.desk_talk.specs.Rights.{right_text};

    ghost output = { λ right. Some (right_text right) };

    fn fmt<W: fmt::Write>(&self, f: &mut fmt::Formatter<W>) -> fmt::Result {
        match self {
            Right::Read => write!(f, "read"),
            Right::Trade => write!(f, "trade"),
            Right::Close => write!(f, "close"),
            Right::Halt => write!(f, "halt"),
        }
    }
}
