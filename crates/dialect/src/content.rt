//! What a message says.

use crate::fault::DialectFault;
use crate::report::Report;
use fix_tags::SessionBody;
use leg::Leg;

/// What a message says: the session's own (FIX 4.4 Volume 2), or an order or a report (Volume 4, NewOrderSingle and
/// ExecutionReport) as a dialect reads it.
#[derive(Clone, Debug, Drop)]
pub enum Content<'a> {
    Session(SessionBody<'a>),
    /// `D`: the leg that the dialect reads, or its fault.
    Order(Result<Leg, DialectFault>),
    /// `8`: the report that the dialect reads, or its fault.
    ExecutionReport(Result<Report, DialectFault>),
    /// An application message of another kind.
    Other,
}
