//! What an own number was used for.

use dialect::{OrderView, Report};

/// What an own number of an exchange was used for.
#[derive(Debug, Drop)]
pub enum SentRecord {
    /// A message of the session.
    Admin,
    /// A report, and the order as it was then.
    Reported { report: Report, view: OrderView },
    /// The refusal of the message of this number.
    Refused { number: u64 },
}
