//! What a report says.

use fix_tags::TextRef;
use leg::Side;

/// What happened to an order: ExecType (150).
#[derive(Debug, Drop)]
pub enum Happening<'a> {
    /// It was taken.
    New,
    /// So many shares were traded: LastQty (32).
    Trade { shares: u64 },
    /// It was canceled or refused, or it expired: nothing is open any more.
    Ended,
    /// The trade whose report had this ExecID is undone: ExecRefID (19).
    Bust { undone: TextRef<'a> },
    /// Another of the standard's kinds: no shares are moved.
    Other,
    /// None of the standard's kinds, or a trade that doesn't say how many shares, or a bust that doesn't say of what.
    Unknown,
}

/// What an ExecutionReport says (FIX 4.4 Volume 4), as far as the rules look at it.
#[derive(Debug, Drop)]
pub struct ReportSaid<'a> {
    /// ClOrdID (11).
    pub id: TextRef<'a>,
    /// ExecID (17).
    pub exec: TextRef<'a>,
    pub happened: Happening<'a>,
    /// CumQty (14), where it can be read.
    pub cum: Option<u64>,
    /// LeavesQty (151), where it can be read.
    pub leaves: Option<u64>,
    /// LastPx (31) in ten-thousandths of a dollar, where it can be read.
    pub price: Option<u64>,
    /// Symbol (55).
    pub symbol: Option<TextRef<'a>>,
    /// Side (54), where it is to buy or to sell.
    pub side: Option<Side>,
    /// OrdStatus (39).
    pub status: Option<TextRef<'a>>,
}
