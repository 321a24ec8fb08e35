//! How an order changes, and what is reported of it.

use crate::ending::Ending;
use crate::trade::Trade;
use dialect::ReportKind;
use leg::Split;

/// A step of an order.
#[derive(Debug, Drop)]
pub enum OrderStep {
    /// A trade fills open shares.
    Traded(Trade),
    /// What is open is cancelled.
    Ended(Ending),
    /// The trade of this place, counted from 1, is undone.
    Busted { place: usize, trade: Trade },
}

/// How an order is to change: its shares afterwards, the step, and what is reported of it.
#[derive(Debug, Drop)]
pub struct OrderDecision {
    pub split: Split,
    pub step: OrderStep,
    pub kind: ReportKind,
}
