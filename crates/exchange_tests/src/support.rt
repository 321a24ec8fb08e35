//! What the tests of the crate share.

use clock::StoppedClock;
use exchange_sim::{MemoryPlan, Plan};
use fix_tags::{CompId, Config, Stamp};
use leg::{Leg, LegId, Side, Symbol, Terms};
use std::test::Fail;

/// The moment of every message.
pub(crate) fn moment() -> Result<Stamp, Fail> {
    Ok(Stamp::new(2024, 1, 2, 14, 30, 0, 0).ok_or("a stamp")?)
}

/// A clock that stands at this moment.
pub(crate) fn stopped_clock() -> Result<StoppedClock, Fail> {
    Ok(StoppedClock::new(moment()?))
}

/// One end of a session, whose numbers go as far as may be.
pub(crate) fn end(me: &[u8], peer: &[u8]) -> Result<Config, Fail> {
    let me = CompId::new(me).ok_or("an id")?;
    let peer = CompId::new(peer).ok_or("a peer")?;
    Ok(Config::new(me, peer, 30, 999_999_999).ok_or("a configuration")?)
}

/// Buy 10 IBM at 10 dollars.
pub(crate) fn worked_leg() -> Result<Leg, Fail> {
    let symbol = Symbol::new(b"IBM", b"")?;
    Ok(Leg {
        id: LegId::new(1, 1),
        terms: Terms::new(symbol, Side::Buy, 10, 100_000)?,
    })
}

/// Of each order 6 shares are traded, and nothing is cut or lost.
pub(crate) const TRADES_6: Plan = Plan {
    fill: 6,
    cut_after: 0,
    lose: 0,
};

/// A link to such an exchange that fails in nothing.
pub(crate) fn faultless() -> MemoryPlan {
    MemoryPlan::faultless(TRADES_6)
}
