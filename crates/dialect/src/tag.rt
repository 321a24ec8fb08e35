//! The tags of an order's fields (FIX 4.4 Volume 4, NewOrderSingle).

/// ClOrdID: which leg of which sweep the order is.
pub(crate) const CL_ORD_ID: u32 = 11;

/// ExecInst: instructions, each one byte, parted by spaces.
pub(crate) const EXEC_INST: u32 = 18;

/// OrderQty: how many shares.
pub(crate) const ORDER_QTY: u32 = 38;

/// OrdType: `2` is a limit order.
pub(crate) const ORD_TYPE: u32 = 40;

/// Price: the limit, in dollars.
pub(crate) const PRICE: u32 = 44;

/// Side: `1` buys and `2` sells.
pub(crate) const SIDE: u32 = 54;

/// Symbol of the security.
pub(crate) const SYMBOL: u32 = 55;

/// SymbolSfx: the suffix of a symbol, where a venue has it in a field of its own.
pub(crate) const SYMBOL_SFX: u32 = 65;

/// TimeInForce: `3` is immediate or cancel.
pub(crate) const TIME_IN_FORCE: u32 = 59;

/// TransactTime: when the order was made.
pub(crate) const TRANSACT_TIME: u32 = 60;

/// A leg of a sweep: a venue's own field, with a tag of those that FIX 4.4 Volume 1 leaves to the parties.
pub(crate) const SWEEP_LEG: u32 = 9001;
