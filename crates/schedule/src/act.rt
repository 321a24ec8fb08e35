//! What an exchange does by itself.

use dialect::LastPx;

/// What an exchange does by itself. Orders are counted from 1 in the order in which they were accepted, and the trades
/// of an order from 1 in the order in which they were made.
#[derive(Clone, Debug, PartialEq, Eq, Drop)]
pub enum Act {
    /// So many of an order's open shares are traded, 1 to 1,000,000, at this price.
    Trade { order: u64, shares: u64, px: LastPx },
    /// The shares of an order that are open are cancelled.
    CancelRest { order: u64 },
    /// An order that was reported as new is refused after all.
    Reject { order: u64 },
    /// A trade of an order is undone.
    Bust { order: u64, trade: u64 },
    /// A TestRequest is written.
    Test,
}
