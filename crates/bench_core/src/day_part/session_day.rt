//! A day of a session with an exchange.

use super::worked::worked_leg;
use dialect::{LastPx, Plain};
use exchange_core::Exchange;
use fix_tags::Stamp;
use fix_text::FrameReader;
use session_core::Session;
use std::alloc::Global;
use trial::{MAX_NUMBER, TrialFault, envelope_in, far_end, near_end, stamp};

/// A session that is up, its exchange, a reader for each, and how many legs were sent.
#[derive(Drop)]
pub struct SessionDay {
    alloc: Global,
    stamp: Stamp,
    session: Session,
    exchange: Exchange,
    to_session: FrameReader,
    to_exchange: FrameReader,
    legs: u64,
}

impl SessionDay {
    /// A day that begins: the two ends log on, and the session is up.
    pub fn new(alloc: Global) -> Result<SessionDay, TrialFault> {
        let mut day = SessionDay {
            alloc,
            stamp: stamp()?,
            session: Session::new(alloc, near_end(MAX_NUMBER)?),
            exchange: Exchange::new(alloc, far_end(MAX_NUMBER)?),
            to_session: FrameReader::new(alloc),
            to_exchange: FrameReader::new(alloc),
            legs: 0,
        };
        let logon = day.session.connect(&Plain, &day.stamp)?;
        for fence in day.told(&logon)? {
            let _ = day.told(&fence)?;
        }
        Ok(day)
    }

    /// What the exchange answers to a frame is received. It gives what the session then answers.
    fn told(&mut self, frame: &[u8]) -> Result<Vec<Vec<u8>>, TrialFault> {
        let mut written = Vec::new(self.alloc);
        for answer in self.exchange_takes(frame)? {
            for frame in self.receive(&answer)? {
                written.push(frame)?;
            }
        }
        Ok(written)
    }

    /// So many legs are sent and accepted, and each has a trade.
    pub fn go_on(&mut self, legs: u64) -> Result<(), TrialFault> {
        for _ in 0..legs {
            let order = self.send_leg()?;
            let _ = self.told(&order)?;
            let report = self.next_trade()?;
            let _ = self.receive(&report)?;
        }
        Ok(())
    }

    /// Sends the next leg, and gives its frame.
    pub fn send_leg(&mut self) -> Result<Vec<u8>, TrialFault> {
        self.legs = self.legs.saturating_add(1);
        let leg = worked_leg(self.legs)?;
        Ok(self.session.send_leg(&Plain, self.legs, &leg, &self.stamp)?)
    }

    /// The frame of a trade of one share of the last order.
    pub fn next_trade(&mut self) -> Result<Vec<u8>, TrialFault> {
        let order = self.exchange.accepted().len();
        let px = LastPx::new(b"10").ok_or(TrialFault::Refused)?;
        self.exchange
            .trade(self.alloc, &Plain, order, 1, px, &self.stamp)?
            .ok_or(TrialFault::Refused)
    }

    /// The session receives a frame, and the note that it gives, if any, is confirmed. It gives what it answers.
    pub fn receive(&mut self, frame: &[u8]) -> Result<Vec<Vec<u8>>, TrialFault> {
        let envelope = envelope_in(&mut self.to_session, frame)?;
        let step = self.session.receive(&Plain, &envelope, &self.stamp)?;
        self.session.confirm();
        Ok(step.out.into_vec())
    }

    /// The exchange takes a frame, and gives what it answers.
    fn exchange_takes(&mut self, frame: &[u8]) -> Result<Vec<Vec<u8>>, TrialFault> {
        let alloc = self.alloc;
        let envelope = envelope_in(&mut self.to_exchange, frame)?;
        Ok(
            self.exchange
                .take(alloc, &Plain, 1, &envelope, &self.stamp)?,
        )
    }

    /// The number of the session's next message.
    pub fn next_out(&self) -> u64 {
        self.session.next_out()
    }

    /// The number that the session expects next.
    pub fn next_in(&self) -> u64 {
        self.session.next_in()
    }
}
