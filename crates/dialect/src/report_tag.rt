//! The tags of a report's fields (FIX 4.4 Volume 4, ExecutionReport) that an order doesn't have.

/// AvgPx: the average price of what was filled.
pub(crate) const AVG_PX: u32 = 6;

/// CumQty: how many shares are filled and not busted.
pub(crate) const CUM_QTY: u32 = 14;

/// ExecID: which report it is.
pub(crate) const EXEC_ID: u32 = 17;

/// ExecRefID: the report that is undone.
pub(crate) const EXEC_REF_ID: u32 = 19;

/// LastPx: the price of a trade.
pub(crate) const LAST_PX: u32 = 31;

/// LastQty: how many shares were traded.
pub(crate) const LAST_QTY: u32 = 32;

/// OrderID: which order it is at the exchange.
pub(crate) const ORDER_ID: u32 = 37;

/// OrdStatus: how the order stands.
pub(crate) const ORD_STATUS: u32 = 39;

/// ExecType: what happened.
pub(crate) const EXEC_TYPE: u32 = 150;

/// LeavesQty: how many shares are open.
pub(crate) const LEAVES_QTY: u32 = 151;
