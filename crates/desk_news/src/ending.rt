//! Why a session ended its connection, as a desk is told.

ghost use Rattle.std.specs.Prelude.{Some};
ghost use Rattle.desk_news.specs.Cause.{ending_text};

use session_core::Ended;
use std::fmt;

/// Why a session ended its connection, in words and with its code: `it was silent (E10)`. "It" is the exchange.
#[derive(Clone, Copy, Debug, PartialEq, Eq)]
pub struct Ending(pub Ended);

impl fmt::Display for Ending {
    ghost output = { λ ending. Some (ending_text ending.0) };

    fn fmt<W: fmt::Write>(&self, f: &mut fmt::Formatter<W>) -> fmt::Result {
        match self.0 {
            Ended::FirstNotLogon => write!(f, "its first message was no logon (E01)"),
            Ended::TooLow => write!(f, "it used a number again (E02)"),
            Ended::WrongComp => write!(f, "it named a wrong comp id (E03)"),
            Ended::ResetRefused => write!(f, "it began its numbers anew (E04)"),
            Ended::ResendInDoubt => write!(f, "it asked for legs in doubt again (E05)"),
            Ended::BadResend => write!(f, "it asked for numbers that were not sent (E06)"),
            Ended::PeerLogout => write!(f, "it logged out (E07)"),
            Ended::LogonAgain => write!(f, "it logged on again (E08)"),
            Ended::BadGapFill => write!(f, "it filled a gap backwards (E09)"),
            Ended::Silent => write!(f, "it was silent (E10)"),
            Ended::Malformed => write!(f, "it sent a malformed message (E11)"),
            Ended::LogoutDone => write!(f, "it answered our logout (E12)"),
            Ended::BadNextExpected => write!(f, "it expects a number that was not sent (E13)"),
            Ended::PeerForgot => write!(f, "it forgot numbers that it had taken (E14)"),
        }
    }
}
