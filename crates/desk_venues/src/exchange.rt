//! The simulated exchanges of a day, each with a socket of its own.

ghost use Rattle.std.specs.Prelude.{◌≡◌, IfOk, IfErr};
ghost use Rattle.exchange_core.specs.Exchange.{new_exchange};
ghost use Rattle.desk_venues.specs.Venues.{exchange_end, plan_of};

use crate::day_fault::DayFault;
use crate::session::exchange_end;
use clock::UtcClock;
use desk_config::Venue;
use exchange_sim::{Acceptor, Plan, Port, serve};
use link::Bell;
use std::alloc::{AllocError, Global};
use std::io;
use std::net::{Net, SocketAddr};
use std::sync::Arc;
use std::sync::atomic::AtomicBool;
use std::time::{Clock, Duration};
use venue_words::VenueDialect;

/// How many seconds a turn of an exchange waits at most. The end of the day ends the wait.
const TURN_SECONDS: u64 = 60;

/// Serves clients in a thread of a day.
pub trait Serve {
    /// Serves its clients until the day is over. The only refusal is out of memory.
    fn serve(self, is_over: &AtomicBool) -> Result<(), AllocError>;
}

/// A simulated exchange, and the port that it listens on.
#[derive(Drop)]
pub struct Exchange<'a, R: Clock> {
    pub addr: SocketAddr,
    port: Port,
    acceptor: Acceptor<VenueDialect, UtcClock<'a, R>>,
}

impl<'a, R: Net + Clock> Exchange<'a, R> {
    /// The exchange of a venue, on a free port of this machine: it trades so many shares of each order at once, and
    /// cuts its connection once, behind message `cut`, or never at 0.
    pub fn open(
        rt: &'a R,
        alloc: Global,
        venue: &Venue,
        fill: u64,
        cut: u64,
    ) -> Result<Exchange<'a, R>, DayFault>
        ensures plan { IfOk result (λ exchange. exchange.acceptor.plan ≡ plan_of fill cut) }
        ensures ends { IfOk result (λ exchange. exchange.acceptor.engine.exchange
            ≡ new_exchange (exchange_end venue.now)) }
        ensures only { IfErr result (λ fault. fault ≡ DayFault.NoSocket) }
    {
        let Ok(mut port) = Port::open(rt, alloc) else {
            return Err(DayFault::NoSocket);
        };
        port.wait_for(Duration::from_secs(TURN_SECONDS));
        let Ok(addr) = port.addr() else {
            return Err(DayFault::NoSocket);
        };
        let plan = Plan {
            fill,
            cut_after: cut,
            lose: 0,
        };
        let clock = UtcClock::new(rt);
        let acceptor = Acceptor::new(
            alloc,
            venue.words.dialect(),
            clock,
            exchange_end(venue),
            plan,
        );
        Ok(Exchange {
            addr,
            port,
            acceptor,
        })
    }
}

impl<'a, R: Net + Clock> Exchange<'a, R> {
    /// The bell that has it look whether the day is over.
    pub fn bell(&self) -> io::Result<Arc<Bell, Global>> {
        self.port.bell()
    }
}

impl<'a, R: Net + Clock> Serve for Exchange<'a, R> {
    fn serve(self, is_over: &AtomicBool) -> Result<(), AllocError> {
        let Exchange {
            addr: _,
            mut port,
            mut acceptor,
        } = self;
        serve(&mut port, &mut acceptor, is_over, u64::MAX)
    }
}
