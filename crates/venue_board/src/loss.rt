//! Why a connection ended.

use session_core::Ended;

/// Why a connection ended.
#[derive(Clone, Copy, Debug, PartialEq, Eq)]
pub enum Loss {
    /// The session ended it.
    Ended(Ended),
    /// No byte comes any more: the exchange closed it.
    PeerClosed,
    /// It couldn't be read.
    ReadFailed,
    /// A message couldn't be written, or only in part.
    WriteFailed,
    /// There was no memory for what was read or to be sent, or for a leg.
    OutOfMemory,
    /// No number was left for a Logon.
    NumbersSpent,
    /// The exchange logged out first, and the venue is one that is dialled again then.
    Parted,
}
