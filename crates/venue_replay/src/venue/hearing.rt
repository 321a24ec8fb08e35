//! What the session of a venue does with the frames that come to it.

ghost use Rattle.std.specs.Prelude.{◌≡◌, OnOk, IfOk};
ghost use Rattle.std.specs.Option.{option_copied, option_map};
ghost use Rattle.leg.specs.Numbered.{numbered};
ghost use Rattle.fix_text.specs.Reading.{next_read};
ghost use Rattle.session_core.specs.Calling.{answers};
ghost use Rattle.session_core.specs.CallResult.{Gives, IsStep};
ghost use Rattle.session_core.specs.Receiving.{receive};
ghost use Rattle.venue_replay.specs.Delivering.{IsFrameOfMessage};
ghost use Rattle.venue_replay.specs.Hearing.{turn_on, heard, inbound_of, confirmed};
ghost use Rattle.venue_replay.specs.Network.{moment, stream_of, said_by, current_in};

use super::Venue;
use crate::frame::Frame;
use crate::inbound::Inbound;
use crate::keep::keep;
use crate::moment::stamp;
use crate::network::{frame_at, next_message, stream_of};
use dialect::{Dialect, Note};
use schedule::FrameNumber;
use session_core::{Session, SessionFault, Step};
use std::alloc::{AllocError, Global};

impl<D: Dialect + Drop> Venue<D> {
    /// A frame that the exchange wrote comes to the session, if it was written in the session's present connection. It
    /// gives what the frame told. The only refusal is out of memory.
    pub fn hear(&mut self, number: FrameNumber) -> Result<Option<Inbound>, AllocError>
        ensures now { OnOk result (self.new ≡ heard self.old
            (turn_on self.old (numbered number self.old.from_exchange))) }
        ensures told { IfOk result (λ told. told ≡ option_map inbound_of
            (turn_on self.old (numbered number self.old.from_exchange))) }
    {
        let alloc = *self.given.allocator();
        let Some(frame) = current_frame(&self.session, &self.from_exchange, number) else {
            return Ok(None);
        };
        match hear_frame(alloc, &self.dialect, &mut self.session, &frame.bytes) {
            Ok(step) => {
                let connection = self.session.connection();
                keep(&mut self.to_exchange, connection, step.out.into_vec())?;
                Ok(Some(Inbound {
                    note: step.note,
                    withdrawn: step.withdrawn,
                    ended: step.ended,
                }))
            }
            Err(_) => Err(AllocError),
        }
    }

    /// The book was told, and has the note if there is one. The only refusal is out of memory.
    pub fn confirm(&mut self, note: Option<Note>) -> Result<(), AllocError>
        ensures { OnOk result (self.new ≡ confirmed self.old note) }
    {
        self.session.confirm();
        match note {
            Some(note) => {
                self.given.push(note)?;
                Ok(())
            }
            None => Ok(()),
        }
    }
}

/// The frame of a number, if it was written in the session's present connection.
fn current_frame<'f>(
    session: &Session,
    frames: &'f [Frame],
    number: FrameNumber,
) -> Option<&'f Frame>
    ensures { option_copied result ≡ current_in session.now (numbered number frames.now) }
{
    let frame = frame_at(frames, number)?;
    if session.phase().is_connected() && frame.connection == session.connection() {
        Some(frame)
    } else {
        None
    }
}

/// A session receives the message of a frame. The only refusal is out of memory, S04.
fn hear_frame<D: Dialect>(
    alloc: Global,
    dialect: &D,
    session: &mut Session,
    frame: &[u8],
) -> Result<Step, SessionFault>
    requires { IsFrameOfMessage (next_read (stream_of frame.now)).frame }
    ensures { Gives (IsStep (D.wording dialect.now).encoding moment)
        session.old (answers (receive session.old (said_by (D.wording dialect.now).decoding frame.now)))
        result session.new }
{
    let mut stream = match stream_of(alloc, frame) {
        Ok(stream) => stream,
        Err(_) => return Err(SessionFault::OutOfMemory),
    };
    match next_message(&mut stream) {
        Ok(envelope) => session.receive(dialect, &envelope, &stamp()),
        Err(_) => Err(SessionFault::OutOfMemory),
    }
}
