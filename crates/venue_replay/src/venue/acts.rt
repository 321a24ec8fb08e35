//! What the exchange of a venue does by itself.

ghost use Rattle.std.specs.Prelude.{◌≡◌, IfOk, OnOk};
ghost use Rattle.exchange_core.specs.Frames.{ActGives};
ghost use Rattle.schedule.specs.Happening.{act_of};
ghost use Rattle.venue_replay.specs.AtVenue.{acted, IsActInRange};
ghost use Rattle.venue_replay.specs.Ending.{refusal_of};
ghost use Rattle.venue_replay.specs.Kept.{last_connection};

use super::Venue;
use crate::frame::Frame;
use crate::moment::stamp;
use dialect::Dialect;
use exchange_core::{Exchange, ExchangeFault};
use fix_tags::Stamp;
use schedule::Act;
use std::alloc::{AllocError, Global};

impl<D: Dialect + Drop> Venue<D> {
    /// The exchange acts, if it may. What it writes goes into its live connection, which is that of its last frame. It
    /// gives the exchange's refusal, if it refuses; out of memory is this call's own.
    pub fn act(&mut self, act: &Act) -> Result<Option<ExchangeFault>, AllocError>
        ensures now { OnOk result (self.new ≡ acted self.old (act_of act.now self.old.exchange)) }
        ensures refused { IfOk result (λ refused. refused ≡ refusal_of (act_of act.now self.old.exchange)) }
    {
        let alloc = *self.given.allocator();
        match perform(alloc, &self.dialect, &mut self.exchange, act, &stamp()) {
            Ok(Some(bytes)) => {
                let Some(connection) = last_connection(&self.from_exchange) else {
                    unreachable!()
                };
                self.from_exchange.push(Frame { connection, bytes })?;
                Ok(None)
            }
            Ok(None) => Ok(None),
            Err(ExchangeFault::OutOfMemory) => Err(AllocError),
            Err(fault) => Ok(Some(fault)),
        }
    }
}

/// The connection of the last frame, if there is one.
fn last_connection(frames: &[Frame]) -> Option<u64>
    ensures { result ≡ last_connection frames.now }
{
    match frames.last() {
        Some(frame) => Some(frame.connection),
        None => None,
    }
}

/// An exchange performs an act, and gives the frame that it writes, if any. The refusals are the exchange's: X01 to
/// X07.
fn perform<D: Dialect>(
    alloc: Global,
    dialect: &D,
    exchange: &mut Exchange,
    act: &Act,
    stamp: &Stamp,
) -> Result<Option<Vec<u8>>, ExchangeFault>
    ensures gives { ActGives (D.wording dialect.now).encoding stamp.now
        exchange.old (act_of act.now exchange.old) result exchange.new }
    ensures in_range { IsActInRange act.now }
{
    match act {
        Act::Trade { order, shares, px } => {
            // That the price is in range is known of one that was read.
            let _ = px.as_bytes();
            let px = px.clone().unwrap();
            exchange.trade(alloc, dialect, *order as usize, *shares, px, stamp)
        }
        Act::CancelRest { order } => exchange.cancel_rest(alloc, dialect, *order as usize, stamp),
        Act::Reject { order } => exchange.reject(alloc, dialect, *order as usize, stamp),
        Act::Bust { order, trade } => {
            exchange.bust(alloc, dialect, *order as usize, *trade as usize, stamp)
        }
        Act::Test => exchange.test(alloc, stamp),
    }
}
