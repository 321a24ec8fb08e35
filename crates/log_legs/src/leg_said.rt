//! An order, with what became of it.

ghost use Rattle.std.specs.Prelude.{◌≡◌};
ghost use Rattle.log_legs.specs.Fate.{said_with};

use crate::fate::Fate;
use crate::kept_leg::KeptLeg;
use fix_tags::TextRef;
use leg::{Side, Totals};
use log_rules::Order;

/// An order of a log, with what became of it.
#[derive(Debug, Drop)]
pub struct LegSaid<'a> {
    /// ClOrdID (11).
    pub id: TextRef<'a>,
    pub fate: Fate,
    /// MsgSeqNum (34), when it was first sent.
    pub number: u64,
    /// How often it was sent.
    pub sent: u64,
    /// Symbol (55), with SymbolSfx (65) behind a point; empty where there is none.
    pub symbol: TextRef<'a>,
    /// Side (54), where it buys or sells.
    pub side: Option<Side>,
    /// OrderQty (38), and 0 where it is no number.
    pub shares: u64,
    /// Price (44) in ten-thousandths of a dollar, where it is one.
    pub price: Option<u64>,
    /// What became of the shares.
    pub totals: Totals,
}

impl<'a> LegSaid<'a> {
    pub(crate) fn new(fate: Fate, order: &'a Order, leg: &'a KeptLeg) -> LegSaid<'a>
        ensures { result ≡ said_with fate order.entry.now leg.entry.now }
    {
        let parts = leg.parts();
        LegSaid {
            id: TextRef::new(order.id()),
            fate,
            number: order.number(),
            sent: leg.sent(),
            symbol: TextRef::new(leg.symbol()),
            side: leg.side(),
            shares: parts.shares(),
            price: leg.price(),
            totals: parts.totals(fate.is_withdrawn()),
        }
    }
}
