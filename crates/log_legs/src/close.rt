//! How far a session's end is.

ghost use Rattle.std.specs.Prelude.{◌≡◌};
ghost use Rattle.log_legs.specs.Close.{close_after, is_over};

use log_rules::{Entry, Says};
use message_log::Direction;

/// How far the end of a session is, in its last connection.
#[derive(Clone, Copy, Debug, PartialEq, Eq)]
pub enum Close {
    /// The session didn't log out.
    Open,
    /// It did, and the exchange didn't answer.
    Asked,
    /// Both logged out.
    Closed,
}

impl Close {
    /// How far it is behind a message.
    pub(crate) fn after(self, entry: &Entry<'_>) -> Close
        ensures { result ≡ close_after self entry.now.direction entry.now.says }
    {
        match (self, entry.direction, &entry.says) {
            (_, Direction::Sent, Says::Logon { .. }) => Close::Open,
            (Close::Open, Direction::Sent, Says::Logout) => Close::Asked,
            (Close::Asked, Direction::Received, Says::Logout) => Close::Closed,
            _ => self,
        }
    }

    /// Whether the session logged out.
    pub fn is_over(self) -> bool
        ensures { result ≡ is_over self }
    {
        self != Close::Open
    }
}
