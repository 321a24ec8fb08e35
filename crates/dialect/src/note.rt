//! What a session tells the book.

use crate::fault::DialectFault;
use crate::report::Report;
use leg::LegId;

/// What a session with an exchange gives the book.
#[derive(Clone, Debug, PartialEq, Eq, Drop)]
pub enum Note {
    /// The exchange reports on a leg.
    Report(Report),
    /// The exchange refused the message that carried this leg.
    Refused(LegId),
    /// A report came that can't be read.
    Unread(DialectFault),
}
