//! What ends an order.

/// What ended an order whose shares were not all traded.
#[derive(Clone, Copy, Debug, PartialEq, Eq)]
pub enum Ending {
    ByCancel,
    ByReject,
}
