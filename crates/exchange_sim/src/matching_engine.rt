//! An exchange that deals with its orders by itself.

ghost use Rattle.std.specs.Prelude.{◌≡◌, ◌++◌, [], OnOk, if◌then◌else◌};
ghost use Rattle.std.specs.List.{concat};
ghost use Rattle.fix_text.specs.FrameFields.{fields_in};
ghost use Rattle.fix_tags.specs.Reading.{envelope_read};
ghost use Rattle.dialect.specs.Message.{decoded};
ghost use Rattle.exchange_core.specs.Acts as acts;
ghost use Rattle.exchange_core.specs.Exchange.{new_exchange, take, drop_connection};
ghost use Rattle.exchange_core.specs.Frames.{bytes_of};
ghost use Rattle.exchange_sim.specs.Dealing.{IsKnown, dealt, takes, takes_frame};
ghost use Rattle.exchange_sim.specs.Sending.{Answers, Reports, Sends, frames_of, messages_of};

use crate::outbox::Outbox;
use crate::trade_price::trade_price;
use clock::Clock;
use dialect::{Dialect, LastPx};
use exchange_core::{Exchange, ExchangeFault};
use fix_tags::{Config, EnvelopeRef, read_envelope};
use fix_text::Frame;
use std::alloc::{AllocError, Global};

/// An exchange that trades some shares of each order that it accepts, cancels the rest, and collects what it writes.
#[derive(Drop)]
pub struct MatchingEngine<D: Dialect, C: Clock> {
    alloc: Global,
    dialect: D,
    clock: C,
    pub exchange: Exchange,
    pub outbox: Outbox,
    // How many shares of each order are traded.
    fill: u64,
}

impl<D: Dialect, C: Clock> MatchingEngine<D, C> {
    /// The exchange before anything came. It takes no memory.
    pub fn new(
        alloc: Global,
        dialect: D,
        clock: C,
        config: Config,
        fill: u64,
    ) -> MatchingEngine<D, C>
        ensures exchange { result.exchange ≡ new_exchange config }
        ensures fill { result.fill ≡ fill }
    {
        MatchingEngine {
            alloc,
            dialect,
            clock,
            exchange: Exchange::new(alloc, config),
            outbox: Outbox::new(alloc),
            fill,
        }
    }

    /// What a frame says is taken, as a message of this connection; a frame that says no message is passed over. Want
    /// of memory may come when the message was taken in part.
    fn take_frame(&mut self, connection: u64, frame: &Frame<'_>) -> Result<(), AllocError>
        ensures exchange { OnOk result (self.new.exchange ≡ takes_frame
            (D.wording self.old.dialect).decoding
            self.old.fill connection self.old.exchange (envelope_read (fields_in frame.now))) }
        ensures dialect { self.new.dialect ≡ self.old.dialect }
        ensures fill { self.new.fill ≡ self.old.fill }
    {
        match read_envelope(frame) {
            Ok(envelope) => self.take(connection, &envelope),
            Err(_) => Ok(()),
        }
    }

    /// The same, unless the frame is lost.
    pub fn take_unless(
        &mut self,
        is_lost: bool,
        connection: u64,
        frame: &Frame<'_>,
    ) -> Result<(), AllocError>
        ensures exchange { OnOk result (self.new.exchange ≡ (if is_lost then self.old.exchange else takes_frame
            (D.wording self.old.dialect).decoding
            self.old.fill connection self.old.exchange (envelope_read (fields_in frame.now)))) }
        ensures dialect { self.new.dialect ≡ self.old.dialect }
        ensures fill { self.new.fill ≡ self.old.fill }
    {
        if is_lost {
            Ok(())
        } else {
            self.take_frame(connection, frame)
        }
    }

    /// Takes a message, and deals with the order that it accepts, if it is one.
    fn take(&mut self, connection: u64, envelope: &EnvelopeRef<'_>) -> Result<(), AllocError>
        ensures exchange { OnOk result (self.new.exchange ≡ takes self.old.fill connection self.old.exchange
            (decoded (D.wording self.old.dialect).decoding envelope.now)) }
        ensures answers { OnOk result (Answers (D.wording self.old.dialect).encoding self.old.fill connection
            self.old.exchange (decoded (D.wording self.old.dialect).decoding envelope.now)
            self.old.outbox self.new.outbox) }
        ensures dialect { self.new.dialect ≡ self.old.dialect }
        ensures fill { self.new.fill ≡ self.old.fill }
    {
        let count = self.exchange.accepted().len();
        self.hand_in(connection, envelope)?;
        match self.exchange.accepted().get(count) {
            Some(leg) => {
                let shares = self.fill.min(leg.terms.shares());
                let px = trade_price(leg);
                self.deal(count + 1, shares, px)
            }
            None => Ok(()),
        }
    }

    /// Hands the exchange a message, and collects what it answers.
    fn hand_in(&mut self, connection: u64, envelope: &EnvelopeRef<'_>) -> Result<(), AllocError>
        ensures exchange { OnOk result (self.new.exchange ≡ (take self.old.exchange connection
            (decoded (D.wording self.old.dialect).decoding envelope.now)).1) }
        ensures sends { OnOk result (Sends (D.wording self.old.dialect).encoding (C.last self.new.clock)
            (take self.old.exchange connection (decoded (D.wording self.old.dialect).decoding envelope.now)).0
            self.old.outbox self.new.outbox) }
        ensures dialect { self.new.dialect ≡ self.old.dialect }
        ensures fill { self.new.fill ≡ self.old.fill }
    {
        let stamp = self.clock.now();
        match self
            .exchange
            .take(self.alloc, &self.dialect, connection, envelope, &stamp)
        {
            Ok(frames) => put_all(frames.as_slice(), &mut self.outbox),
            Err(_) => Err(AllocError),
        }
    }

    /// Trades so many shares of the order at a place, counted from 1, and cancels the rest of it.
    #[tactic(auto, unfolding(crate::specs::Dealing::dealt))]
    fn deal(&mut self, place: usize, shares: u64, px: LastPx) -> Result<(), AllocError>
        ensures exchange { OnOk result (self.new.exchange ≡ dealt place shares px self.old.exchange) }
        ensures reports { OnOk result (Reports (D.wording self.old.dialect).encoding place shares px self.old.exchange
            self.old.outbox self.new.outbox) }
        ensures dialect { self.new.dialect ≡ self.old.dialect }
        ensures fill { self.new.fill ≡ self.old.fill }
    {
        self.trade(place, shares, px)?;
        self.cancel_rest(place)
    }

    /// Trades so many shares of the order at a place; where the exchange refuses it nothing is done.
    fn trade(&mut self, place: usize, shares: u64, px: LastPx) -> Result<(), AllocError>
        ensures exchange { OnOk result (self.new.exchange ≡ (acts.trade self.old.exchange place shares px).1) }
        ensures sends { OnOk result (Sends (D.wording self.old.dialect).encoding (C.last self.new.clock)
            (messages_of (acts.trade self.old.exchange place shares px).0) self.old.outbox self.new.outbox) }
        ensures dialect { self.new.dialect ≡ self.old.dialect }
        ensures fill { self.new.fill ≡ self.old.fill }
    {
        let stamp = self.clock.now();
        let answer = self
            .exchange
            .trade(self.alloc, &self.dialect, place, shares, px, &stamp);
        put_answer(answer, &mut self.outbox)
    }

    /// Cancels what is open of the order at a place; where the exchange refuses it nothing is done.
    fn cancel_rest(&mut self, place: usize) -> Result<(), AllocError>
        ensures exchange { OnOk result (self.new.exchange ≡ (acts.cancel_rest self.old.exchange place).1) }
        ensures sends { OnOk result (Sends (D.wording self.old.dialect).encoding (C.last self.new.clock)
            (messages_of (acts.cancel_rest self.old.exchange place).0) self.old.outbox self.new.outbox) }
        ensures dialect { self.new.dialect ≡ self.old.dialect }
        ensures fill { self.new.fill ≡ self.old.fill }
    {
        let stamp = self.clock.now();
        let answer = self
            .exchange
            .cancel_rest(self.alloc, &self.dialect, place, &stamp);
        put_answer(answer, &mut self.outbox)
    }

    /// The connection ends: nothing waits to be sent any more.
    pub fn disconnect(&mut self)
        ensures exchange { self.new.exchange ≡ drop_connection self.old.exchange }
        ensures outbox { self.new.outbox ≡ [] }
        ensures dialect { self.new.dialect ≡ self.old.dialect }
        ensures fill { self.new.fill ≡ self.old.fill }
    {
        self.exchange.drop_connection();
        self.outbox.clear();
    }
}

/// Puts the frame of an act behind the bytes that wait, if there is one. An act that the exchange refused has none.
fn put_answer(
    answer: Result<Option<Vec<u8>>, ExchangeFault>,
    outbox: &mut Outbox,
) -> Result<(), AllocError>
    ensures known { OnOk result (IsKnown answer) }
    ensures sends { OnOk result (outbox.new ≡ outbox.old ++ concat (frames_of answer)) }
{
    match answer {
        Ok(Some(frame)) => outbox.put(frame.as_slice()),
        Ok(None) => Ok(()),
        Err(ExchangeFault::OutOfMemory) => Err(AllocError),
        Err(_) => Ok(()),
    }
}

/// Puts frames behind the bytes that wait, in order.
fn put_all(frames: &[Vec<u8>], outbox: &mut Outbox) -> Result<(), AllocError>
    ensures { OnOk result (outbox.new ≡ outbox.old ++ concat (bytes_of frames.now)) }
{
    for frame in frames {
        outbox.put(frame.as_slice())?;
    }
    Ok(())
}
