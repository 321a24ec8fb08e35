//! The exchange's end of a session.

ghost use Rattle.std.specs.Prelude.{◌≡◌, ◌<◌, ◌++◌, [], true, false, drop, length, min, option_map, take, IfOk, IfSome, OnOk};
ghost use Rattle.fix_text.specs.Reading.{fed, next_read};
ghost use Rattle.exchange_core.specs.Exchange.{new_exchange, drop_connection};
ghost use Rattle.exchange_sim.specs.Hearing.{Hears, next_heard, one_more};

use crate::matching_engine::MatchingEngine;
use crate::plan::Plan;
use clock::Clock;
use dialect::Dialect;
use exchange_core::Exchange;
use fix_tags::Config;
use fix_text::FrameReader;
use std::alloc::{AllocError, Global};

/// The exchange's end of a session: it takes the bytes that come, in any pieces, and answers with bytes. It has one
/// connection at a time.
#[derive(Drop)]
pub struct Acceptor<D: Dialect, C: Clock> {
    alloc: Global,
    plan: Plan,
    engine: MatchingEngine<D, C>,
    reader: FrameReader,
    // The connection, from 1, and whether it is still there.
    connection: u64,
    is_connected: bool,
    // How many messages were read in all connections.
    messages: u64,
}

impl<D: Dialect, C: Clock> Acceptor<D, C> {
    /// An exchange that nobody has connected to. It takes no memory.
    pub fn new(alloc: Global, dialect: D, clock: C, config: Config, plan: Plan) -> Acceptor<D, C>
        ensures exchange { result.engine.exchange ≡ new_exchange config }
        ensures plan { (result.plan ≡ plan) × (result.engine.fill ≡ plan.fill) }
    {
        Acceptor {
            alloc,
            plan,
            engine: MatchingEngine::new(alloc, dialect, clock, config, plan.fill),
            reader: FrameReader::new(alloc),
            connection: 0,
            is_connected: false,
            messages: 0,
        }
    }

    /// The exchange as it is.
    pub fn exchange(&self) -> &Exchange
        ensures { result.now ≡ self.now.engine.exchange }
    {
        &self.engine.exchange
    }

    /// Whether there is a connection.
    pub fn is_connected(&self) -> bool
        ensures { result ≡ self.now.is_connected }
    {
        self.is_connected
    }

    /// A new connection begins. The one before it ends, if there is one.
    pub fn connect(&mut self)
        ensures exchange { self.new.engine.exchange ≡ drop_connection self.old.engine.exchange }
        ensures outbox { self.new.engine.outbox ≡ [] }
        ensures reader { self.new.reader ≡ record { rest = []; skipped = 0; garbled = 0 } }
        ensures messages { self.new.messages ≡ self.old.messages }
        ensures connection { self.new.connection ≡ one_more self.old.connection }
        ensures connected { self.new.is_connected ≡ true }
    {
        self.disconnect();
        self.connection = self.connection.saturating_add(1);
        self.is_connected = true;
    }

    /// The connection ends, if there is one. What was read in part is dropped, and so is what waits to be sent.
    pub fn disconnect(&mut self)
        ensures exchange { self.new.engine.exchange ≡ drop_connection self.old.engine.exchange }
        ensures outbox { self.new.engine.outbox ≡ [] }
        ensures reader { self.new.reader ≡ record { rest = []; skipped = 0; garbled = 0 } }
        ensures messages { self.new.messages ≡ self.old.messages }
        ensures connection { self.new.connection ≡ self.old.connection }
        ensures connected { self.new.is_connected ≡ false }
    {
        self.engine.disconnect();
        self.reader = FrameReader::new(self.alloc);
        self.is_connected = false;
    }

    /// Takes the bytes that come: each frame that they complete, in order. Where the plan cuts the connection behind
    /// one of them it ends. Where there is no connection they are dropped. Out of memory may come when some of them
    /// were taken.
    pub fn receive(&mut self, bytes: &[u8]) -> Result<(), AllocError>
        ensures dropped { self.old.is_connected ≡ false → self.new ≡ self.old }
        ensures hears { self.old.is_connected ≡ true → OnOk result (Hears
            (record {
              readers = (D.wording self.old.engine.dialect).decoding;
              fill = self.old.engine.fill;
              lose = self.old.plan.lose;
              connection = self.old.connection;
            })
            self.old.plan.cut_after
            (record {
              stream = fed self.old.reader bytes.now;
              messages = self.old.messages;
              exchange = self.old.engine.exchange;
            })
            self.new.is_connected
            (record {
              stream = self.new.reader;
              messages = self.new.messages;
              exchange = self.new.engine.exchange;
            })) }
    {
        if !self.is_connected {
            return Ok(());
        }
        match self.reader.feed(bytes) {
            Ok(()) => {}
            Err(_) => return Err(AllocError),
        }
        while let Some(number) = self.take_next()? {
            if number == self.plan.cut_after {
                self.disconnect();
                return Ok(());
            }
        }
        Ok(())
    }

    /// Takes the next frame that was read, and gives its number, if there is one. The message that the plan loses is
    /// passed over.
    fn take_next(&mut self) -> Result<Option<u64>, AllocError>
        ensures heard { OnOk result (record {
          stream = self.new.reader;
          messages = self.new.messages;
          exchange = self.new.engine.exchange;
        }
            ≡ next_heard
            (record {
              readers = (D.wording self.old.engine.dialect).decoding;
              fill = self.old.engine.fill;
              lose = self.old.plan.lose;
              connection = self.old.connection;
            })
            (record {
              stream = self.old.reader;
              messages = self.old.messages;
              exchange = self.old.engine.exchange;
            })) }
        ensures number { IfOk result (λ number.
            number ≡ option_map (λ _. self.new.messages) (next_read self.old.reader).frame) }
        ensures same { (self.new.engine.dialect ≡ self.old.engine.dialect)
            × (self.new.engine.fill ≡ self.old.engine.fill)
            × (self.new.plan ≡ self.old.plan) × (self.new.connection ≡ self.old.connection)
            × (self.new.is_connected ≡ self.old.is_connected) }
        ensures shorter { IfOk result (λ number.
            IfSome number (λ _. length self.new.reader.rest < length self.old.reader.rest)) }
    {
        match self.reader.next() {
            Ok(Some(frame)) => {
                self.messages = self.messages.saturating_add(1);
                let is_lost = self.messages == self.plan.lose;
                self.engine.take_unless(is_lost, self.connection, &frame)?;
                Ok(Some(self.messages))
            }
            Ok(None) => Ok(None),
            Err(_) => Err(AllocError),
        }
    }

    /// The bytes that wait to be sent.
    pub fn waiting(&self) -> &[u8]
        ensures { result.now ≡ self.now.engine.outbox }
    {
        self.engine.outbox.waiting()
    }

    /// Puts the first of the bytes that wait into a buffer, as many as it has room for and at most so many, and says
    /// how many. They still wait.
    pub fn copy_waiting(&self, most: usize, buf: &mut [u8]) -> usize
        ensures count { result ≡ min (min (length self.now.engine.outbox) most) (length buf.old) }
        ensures bytes { buf.new ≡ take result self.now.engine.outbox ++ drop result buf.old }
    {
        let waiting = self.waiting();
        let count = waiting.len().min(most).min(buf.len());
        buf[..count].copy_from_slice(&waiting[..count]);
        count
    }

    /// So many of the bytes that wait were sent, or all of them if fewer wait.
    pub fn pass(&mut self, count: usize)
        ensures { self.new.engine.outbox ≡ drop count self.old.engine.outbox }
    {
        self.engine.outbox.pass(count);
    }
}
