//! The line to a venue.

ghost use Rattle.std.specs.Prelude.{◌≡◌, [], OnOk, OnErr, IsOkUnless};
ghost use Rattle.fix_text.specs.Reading.{next_read, fed};
ghost use Rattle.session_core.specs.CallResult.{Gives, IsStep};
ghost use Rattle.session_core.specs.Calling.{connect, broken};
ghost use Rattle.session_core.specs.Session.{new_session};
ghost use Rattle.embed.specs.Line.{wording_of, asked, IsFrameOf, Hears};

use crate::event::Ask;
use dialect::AnyDialect;
use fix_tags::{Config, Stamp, read_envelope};
use fix_text::FrameReader;
use session_core::{Ended, Session, SessionFault, Step};
use std::alloc::Global;

/// What came of a frame.
#[derive(Drop)]
pub enum Heard {
    /// The session received its message.
    Step(Step),
    /// It is no message, which ends the connection, if there is one.
    Malformed(Option<Ended>),
}

/// The session with a venue, and what came over its connection.
#[derive(Drop)]
pub struct Line {
    alloc: Global,
    pub dialect: AnyDialect,
    pub session: Session,
    pub reader: FrameReader,
}

impl Line {
    /// A line on which nothing was done.
    pub fn new(alloc: Global, dialect: AnyDialect, config: Config) -> Line
        ensures dialect { result.dialect ≡ dialect }
        ensures session { result.session ≡ new_session config }
        ensures reader { result.reader ≡ record { rest = []; skipped = 0; garbled = 0 } }
    {
        Line {
            alloc,
            dialect,
            session: Session::new(alloc, config),
            reader: FrameReader::new(alloc),
        }
    }

    /// A new connection, with a Logon. Bytes of the last one are gone, unless it is refused.
    pub fn connect(&mut self, stamp: &Stamp) -> Result<Vec<u8>, SessionFault>
        ensures session { Gives (IsFrameOf (wording_of self.old.dialect) stamp.now)
            self.old.session (connect self.old.session) result self.new.session }
        ensures empty { OnOk result (self.new.reader ≡ record { rest = []; skipped = 0; garbled = 0 }) }
        ensures refused { OnErr result (self.new.reader ≡ self.old.reader) }
        ensures dialect { self.new.dialect ≡ self.old.dialect }
    {
        let logon = self.session.connect(&self.dialect, stamp)?;
        self.reader = FrameReader::new(self.alloc);
        Ok(logon)
    }

    /// The answer of the session to what it is asked for.
    pub fn answer(&mut self, ask: Ask, stamp: &Stamp) -> Result<Step, SessionFault>
        ensures session { Gives (IsStep (wording_of self.old.dialect).encoding stamp.now)
            self.old.session (asked ask self.old.session) result self.new.session }
        ensures reader { self.new.reader ≡ self.old.reader }
        ensures dialect { self.new.dialect ≡ self.old.dialect }
    {
        match ask {
            Ask::Quiet => self.session.quiet(&self.dialect, stamp),
            Ask::Silent => self.session.silent(&self.dialect, stamp),
            Ask::Close => self.session.close(&self.dialect, stamp),
        }
    }

    /// The connection is gone.
    pub fn break_off(&mut self)
        ensures session { self.new.session ≡ broken self.old.session }
        ensures reader { self.new.reader ≡ self.old.reader }
        ensures dialect { self.new.dialect ≡ self.old.dialect }
    {
        self.session.broken();
    }

    /// These bytes came. The only refusal is out of memory.
    pub fn feed(&mut self, bytes: &[u8]) -> Result<(), SessionFault>
        ensures ok { OnOk result (self.new.reader ≡ fed self.old.reader bytes.now) }
        ensures err { OnErr result (self.new.reader ≡ self.old.reader) }
        ensures refusal { IsOkUnless result SessionFault.OutOfMemory }
        ensures session { self.new.session ≡ self.old.session }
        ensures dialect { self.new.dialect ≡ self.old.dialect }
    {
        self.reader
            .feed(bytes)
            .map_err(|_| SessionFault::OutOfMemory)
    }

    /// What the session makes of the next frame that came whole. The only refusal is out of memory.
    pub fn hear(&mut self, stamp: &Stamp) -> Result<Option<Heard>, SessionFault>
        ensures hears { Hears (wording_of self.old.dialect) stamp.now self.old.reader self.old.session result
            self.new.session }
        ensures reader { OnOk result (self.new.reader ≡ (next_read self.old.reader).stream) }
        ensures dialect { self.new.dialect ≡ self.old.dialect }
    {
        let frame = match self.reader.next() {
            Ok(Some(frame)) => frame,
            Ok(None) => return Ok(None),
            Err(_) => return Err(SessionFault::OutOfMemory),
        };
        match read_envelope(&frame) {
            Ok(envelope) => match self.session.receive(&self.dialect, &envelope, stamp) {
                Ok(step) => Ok(Some(Heard::Step(step))),
                Err(_) => Err(SessionFault::OutOfMemory),
            },
            Err(_) => Ok(Some(Heard::Malformed(self.session.malformed()))),
        }
    }
}
