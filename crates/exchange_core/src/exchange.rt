//! An exchange.

ghost use Rattle.std.specs.Prelude.{◌≡◌};
ghost use Rattle.exchange_core.specs.Exchange.{new_exchange, accepted_by, drop_connection};
ghost use Rattle.exchange_core.specs.Kept.{reports_of};

mod acts;
mod decide;
mod order_decisions;
mod take;

use crate::live_connection::LiveConnection;
use crate::order::Order;
use crate::sent_record::SentRecord;
use dialect::Report;
use fix_tags::Config;
use leg::Leg;
use std::alloc::Global;
use std::marker::Model;

/// The exchange of one venue: it takes orders from its peer, answers for each message of the session, and reports on
/// the orders. Its numbers begin at 1 and go on over connections.
#[derive(Drop)]
pub struct Exchange {
    config: Config,
    expected: u64,
    live: Option<LiveConnection>,
    last: u64,
    orders: Vec<Order>,
    closed_at: Option<usize>,
    own: Vec<SentRecord>,
    // The legs of the orders, and the reports among what the own numbers were used for, as they are lent.
    accepted: Vec<Leg>,
    reports: Vec<Report>,
}

impl Model for Exchange {
    ghost use Rattle.exchange_core.specs.Exchange.{ExchangeParts};

    ghost Value = { ExchangeParts };

    ghost use Rattle.exchange_core.specs.Kept.{exchange_seen, IsKept};

    ghost view = { exchange_seen };

    ghost invariant = { IsKept };
}

impl Exchange {
    /// Before anything came. It takes no memory.
    pub fn new(alloc: Global, config: Config) -> Exchange
        ensures { result ≡ new_exchange config }
    {
        // That the configuration is in range is known of one that was read.
        let _ = config.heart();
        Exchange {
            config,
            expected: 1,
            live: None,
            last: 0,
            orders: Vec::new(alloc),
            closed_at: None,
            own: Vec::new(alloc),
            accepted: Vec::new(alloc),
            reports: Vec::new(alloc),
        }
    }

    /// The legs of the orders that it accepted, in order. It takes no memory.
    pub fn accepted(&self) -> &[Leg]
        ensures { result.now ≡ accepted_by self.now }
    {
        self.accepted.as_slice()
    }

    /// All reports made, in order, also those of which no frame was written. It takes no memory.
    pub fn reports(&self) -> &[Report]
        ensures { result.now ≡ reports_of self.now.own }
    {
        self.reports.as_slice()
    }

    /// The number that the next message of the peer is expected to have, from 1. It takes no memory.
    pub fn expected(&self) -> u64
        ensures { result ≡ self.now.expected }
    {
        self.expected
    }

    /// How many orders were accepted when it took the Logout, if it took one. It takes no memory.
    pub fn closed_at(&self) -> Option<usize>
        ensures { result ≡ self.now.closed_at }
    {
        self.closed_at
    }

    /// The live connection ends, if there is one. It takes no memory.
    pub fn drop_connection(&mut self)
        ensures { self.new ≡ drop_connection self.old }
    {
        self.live = None;
    }
}
