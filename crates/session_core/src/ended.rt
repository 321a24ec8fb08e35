//! Why a connection ended.

ghost use Rattle.std.specs.Prelude.{◌≡◌};

use thiserror::Error;

/// Why a session ended its connection (FIX 4.4 Volume 2).
#[derive(Clone, Copy, Debug, PartialEq, Eq, Error)]
pub enum Ended {
    /// The first message of a connection is no Logon.
    #[error("E01 first message is no logon")]
    FirstNotLogon,
    /// A message's number was received before, and the message isn't marked as a possible duplicate.
    #[error("E02 number too low")]
    TooLow,
    /// The comp ids aren't those of the session.
    #[error("E03 wrong comp id")]
    WrongComp,
    /// The exchange wants to begin its numbers anew.
    #[error("E04 reset refused")]
    ResetRefused,
    /// A resend request begins above the settled number, where a leg may be in doubt.
    #[error("E05 resend in doubt")]
    ResendInDoubt,
    /// The range of a resend request is none of numbers that were sent.
    #[error("E06 bad resend request")]
    BadResend,
    /// The exchange logged out first.
    #[error("E07 peer logged out")]
    PeerLogout,
    /// A second Logon came in one connection.
    #[error("E08 logon again")]
    LogonAgain,
    /// The new number of a gap fill isn't above the fill's own.
    #[error("E09 bad gap fill")]
    BadGapFill,
    /// Nothing was received between two calls of `silent`.
    #[error("E10 silent")]
    Silent,
    /// A frame was no message.
    #[error("E11 malformed")]
    Malformed,
    /// The exchange answered the session's Logout.
    #[error("E12 logout done")]
    LogoutDone,
    /// The number that a Logon expects next (789) is above what was sent.
    #[error("E13 bad next expected number")]
    BadNextExpected,
    /// While legs are settled, the exchange expects a number again that it had passed, by a resend request or in its
    /// Logon (789).
    #[error("E14 peer forgot what it took")]
    PeerForgot,
}

impl Ended {
    ghost use Rattle.session_core.specs.Turn.{after_peer_logout};

    /// Whether the exchange logged out first, after which the session is over.
    pub(crate) fn is_peer_logout(self) -> bool
        ensures { result ≡ after_peer_logout self }
    {
        match self {
            Ended::PeerLogout => true,
            Ended::FirstNotLogon => false,
            Ended::TooLow => false,
            Ended::WrongComp => false,
            Ended::ResetRefused => false,
            Ended::ResendInDoubt => false,
            Ended::BadResend => false,
            Ended::LogonAgain => false,
            Ended::BadGapFill => false,
            Ended::Silent => false,
            Ended::Malformed => false,
            Ended::LogoutDone => false,
            Ended::BadNextExpected => false,
            Ended::PeerForgot => false,
        }
    }
}
