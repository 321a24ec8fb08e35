//! The kinds of application messages.

/// MsgType (35) of an order, NewOrderSingle (FIX 4.4 Volume 4).
pub const ORDER_KIND: &[u8] = b"D";

/// MsgType (35) of a report on an order, ExecutionReport (FIX 4.4 Volume 4).
pub const REPORT_KIND: &[u8] = b"8";
