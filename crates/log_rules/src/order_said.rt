//! What an order says.

use fix_tags::TextRef;
use leg::Side;

/// What a NewOrderSingle says (FIX 4.4 Volume 4), as far as the rules look at it, and what it buys or sells.
#[derive(Debug, Drop)]
pub struct OrderSaid<'a> {
    /// ClOrdID (11).
    pub id: TextRef<'a>,
    /// OrderQty (38), and 0 where it can't be read.
    pub shares: u64,
    /// Symbol (55).
    pub symbol: Option<TextRef<'a>>,
    /// SymbolSfx (65).
    pub suffix: Option<TextRef<'a>>,
    /// Side (54), where it is to buy or to sell.
    pub side: Option<Side>,
    /// Price (44) in ten-thousandths of a dollar, where it can be read.
    pub price: Option<u64>,
}
