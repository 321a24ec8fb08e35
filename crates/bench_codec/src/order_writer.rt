//! Orders are written, with the room of one for the next.
ghost use Rattle.std.specs.Prelude.{◌≤◌};

use crate::worked::{FIRST_NUMBER, order_leg};
use dialect::{Content, Message, Outgoing, Plain, append_message};
use fix_tags::{Config, MAX_MESSAGE_NUMBER, Stamp};
use leg::Leg;
use std::alloc::Global;
use trial::{MAX_NUMBER, TrialFault, near_end, stamp};

/// The worked order under its next number, and the frame that was written last.
#[derive(Drop)]
pub struct OrderWriter {
    alloc: Global,
    config: Config,
    leg: Leg,
    stamp: Stamp,
    number: u64,
    frame: Vec<u8>,
    ghost number_from: { 1 ≤ number },
    ghost number_to: { number ≤ 999999998 },
}

impl OrderWriter {
    pub fn new(alloc: Global) -> Result<OrderWriter, TrialFault> {
        Ok(OrderWriter {
            alloc,
            config: near_end(MAX_NUMBER)?,
            leg: order_leg()?,
            stamp: stamp()?,
            number: FIRST_NUMBER,
            frame: Vec::new(alloc),
        })
    }

    /// The frame of the order under the next number, in the room of the last one.
    pub fn write(&mut self) -> Result<&[u8], TrialFault> {
        // That the names and the leg are in range is known once they were read.
        let _me = self.config.me();
        self.leg.in_range();
        let content = Content::Order(Ok(self.leg.clone()?));
        let order = Outgoing::alone(Message::to_peer(&self.config, self.number, false, content));
        self.frame.clear();
        append_message(self.alloc, &Plain, &self.stamp, &order, &mut self.frame)?;
        self.number = self.number % MAX_MESSAGE_NUMBER + 1;
        Ok(self.frame.as_slice())
    }
}
