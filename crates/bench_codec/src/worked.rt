//! The worked messages: an order of sweep 12, and the report on a trade.

use leg::{Leg, LegId, Side, Symbol, Terms};
use trial::TrialFault;

/// MsgSeqNum (34) of the first order.
pub const FIRST_NUMBER: u64 = 4;

/// The report on a trade of 60 shares of the first leg of sweep 1.
pub const TRADE_REPORT: &[u8] =
    b"8=FIX.4.4\x019=122\x0135=8\x0149=B\x0156=A\x0134=4\x0152=20240102-14:30:00.000\x0137=O1\x0117=E2\x01150=F\x0139=1\x0111=S1L1\x0155=BRK.B\x0154=1\x0132=60\x0131=10.25\x01151=40\x0114=60\x016=0\x0110=163\x01";

/// Buy 100 BRK.B at 10.25 dollars: the third leg of sweep 12.
pub fn order_leg() -> Result<Leg, TrialFault> {
    let symbol = Symbol::new(b"BRK", b"B")?;
    let terms = Terms::new(symbol, Side::Buy, 100, 102_500)?;
    Ok(Leg {
        id: LegId::new(12, 3),
        terms,
    })
}
