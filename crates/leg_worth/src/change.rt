//! What a note changes of its leg's worth.

use crate::worth::Worth;
use dialect::{ExecId, Fill};
use leg::LegId;

/// A trade of a leg, under the id of its report.
#[derive(Debug, Drop)]
pub(crate) struct LegTrade {
    pub(crate) exec: ExecId,
    pub(crate) fill: Fill,
}

/// What a note changes, where the book takes it: the worth of its leg, and the trade that it tells, if it tells one.
#[derive(Debug, Drop)]
pub struct WorthChange {
    pub(crate) leg: LegId,
    pub(crate) now: Worth,
    pub(crate) trade: Option<LegTrade>,
}
