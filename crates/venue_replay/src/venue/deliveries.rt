//! What the exchange of a venue does with the frames that come to it.

ghost use Rattle.std.specs.Prelude.{◌≡◌, OnOk};
ghost use Rattle.leg.specs.Numbered.{numbered};
ghost use Rattle.fix_text.specs.Reading.{next_read};
ghost use Rattle.exchange_core.specs.Exchange.{take};
ghost use Rattle.exchange_core.specs.Frames.{TakeGives};
ghost use Rattle.venue_replay.specs.Delivering.{IsFrameOfMessage, taken};
ghost use Rattle.venue_replay.specs.Network.{moment, message_in};

use super::Venue;
use crate::keep::keep;
use crate::moment::stamp;
use crate::network::{frame_at, next_message, stream_of};
use dialect::Dialect;
use exchange_core::{Exchange, ExchangeFault};
use fix_text::FrameReader;
use schedule::FrameNumber;
use std::alloc::{AllocError, Global};

impl<D: Dialect + Drop> Venue<D> {
    /// A frame that was written to the exchange comes to it, in the connection that it was written in. Where there is
    /// no such frame nothing happens. The only refusal is out of memory.
    pub fn deliver_to_exchange(&mut self, number: FrameNumber) -> Result<(), AllocError>
        ensures { OnOk result (self.new ≡ taken self.old (numbered number self.old.to_exchange)) }
    {
        let alloc = *self.given.allocator();
        let Some(frame) = frame_at(&self.to_exchange, number) else {
            return Ok(());
        };
        let connection = frame.connection;
        let mut stream = stream_of(alloc, &frame.bytes)?;
        match take_next(
            alloc,
            &self.dialect,
            &mut self.exchange,
            connection,
            &mut stream,
        ) {
            Ok(written) => {
                if keep(&mut self.from_exchange, connection, written).is_err() {
                    // What the exchange wrote is lost, and so is its connection.
                    self.exchange.drop_connection();
                    return Err(AllocError);
                }
                Ok(())
            }
            Err(_) => Err(AllocError),
        }
    }
}

/// An exchange takes the next frame of a stream, which comes in a connection. The only refusal is out of memory, X04.
fn take_next<D: Dialect>(
    alloc: Global,
    dialect: &D,
    exchange: &mut Exchange,
    connection: u64,
    stream: &mut FrameReader,
) -> Result<Vec<Vec<u8>>, ExchangeFault>
    requires { IsFrameOfMessage (next_read stream.old).frame }
    ensures { TakeGives (D.wording dialect.now).encoding moment exchange.old
        (take exchange.old connection (message_in
        (D.wording dialect.now).decoding (next_read stream.old).frame))
        result exchange.new }
{
    match next_message(stream) {
        Ok(envelope) => exchange.take(alloc, dialect, connection, &envelope, &stamp()),
        Err(_) => Err(ExchangeFault::OutOfMemory),
    }
}
